ghost use Rattle.std.specs.Prelude.{◌≡◌};
ghost use Rattle.mbim_services.specs.declared.answers.AnswerFault.TheVariants.{OutOfMemory};
ghost use Rattle.mbim_services.specs.Requests.{sent_by};
ghost use Rattle.mbim_services.specs.Answers.{Answers, Fits, fault_of};

use crate::requests::layout_done;
use mbim_fields::{FieldFault, FieldShape, FieldVal, decode_fields};
use mbim_requests::MbimRequest;
use std::alloc::{AllocError, Global};
use thiserror::Error;

/// What an answer says.
#[derive(Drop)]
pub enum MbimAnswer {
    /// The layout of the answer's buffer, and the values of its fields.
    Success(FieldShape, FieldVal),
    /// The modem's status.
    Failure(u32),
}

/// Why an answer isn't read.
#[derive(Clone, Copy, Debug, PartialEq, Eq, Error)]
pub enum AnswerFault {
    /// It tells of success, and its buffer has no values in the command's layout.
    #[error("the answer doesn't read")]
    Unread,
    /// It tells of success, and what is read of its buffer counts as more than 16 MiB.
    #[error("the answer's values are too many")]
    TooLarge,
    #[error("out of memory")]
    OutOfMemory,
}

impl From<AllocError> for AnswerFault {
    ghost from_gives = { λ _ fault. fault ≡ OutOfMemory };

    fn from(_: AllocError) -> Self {
        AnswerFault::OutOfMemory
    }
}

impl From<FieldFault> for AnswerFault {
    ghost from_gives = { λ field_fault fault. fault ≡ fault_of field_fault };

    fn from(fault: FieldFault) -> Self {
        match fault {
            FieldFault::OutOfRange { .. } | FieldFault::Lone { .. } => AnswerFault::Unread,
            FieldFault::TooLarge => AnswerFault::TooLarge,
            FieldFault::OutOfMemory => AnswerFault::OutOfMemory,
        }
    }
}

/// What the answer to a request says that came with a status and a buffer. The status of a success is 0;
/// the buffer of a failure isn't looked at.
pub fn done(
    alloc: Global,
    body: &MbimRequest,
    status: u32,
    buffer: &[u8],
) -> Result<MbimAnswer, AnswerFault>
    ensures says { Answers (sent_by body.now).row.done status buffer.now result }
    ensures fits { Fits (sent_by body.now).row.done buffer.now result }
{
    if status != 0 {
        return Ok(MbimAnswer::Failure(status));
    }
    let shape = layout_done(body);
    let val = decode_fields(alloc, &shape, buffer)?;
    Ok(MbimAnswer::Success(shape, val))
}
