ghost use Rattle.mbim_session.specs.Session.{Session as MbimSession};
ghost use Rattle.std.specs.Prelude.{◌≡◌};
ghost use Rattle.tool_runs.specs.Mbim.{bodies, mbim_decoding, printed, refused};

use crate::session::{Refusal, Session};
use kit_bytes::Octets;
use link_io::Link;
use link_session::SessionFault;
use mbim_requests::MbimRequest;
use mbim_services::MbimAnswer;
use mbim_session::{MbimEnd, MbimPlan, mbim_session};
use mbimcli_print::mbim_text;
use sms_answers::mbim_bodies;
use sms_print::Decoding;
use std::alloc::{AllocError, Global};

impl Session for MbimPlan {
    type End = MbimEnd;

    ghost session = { λ plan calls result. MbimSession plan calls result };

    ghost refused = { refused };

    ghost printed = { printed };

    ghost bodies = { bodies };

    fn hold<L: Link>(&self, alloc: Global, link: &mut L) -> Result<MbimEnd, SessionFault> {
        mbim_session(alloc, link, self)
    }

    fn refusal(end: &MbimEnd) -> Option<Refusal> {
        match end {
            MbimEnd::FunctionError(code) => Some(Refusal {
                function: true,
                code: *code,
            }),
            MbimEnd::Answer(MbimAnswer::Failure(status)) => Some(Refusal {
                function: false,
                code: *status,
            }),
            MbimEnd::Answer(MbimAnswer::Success(_, _)) => None,
        }
    }

    fn text(alloc: Global, end: &MbimEnd) -> Result<Octets, AllocError> {
        match end {
            MbimEnd::Answer(answer) => mbim_text(alloc, answer),
            MbimEnd::FunctionError(_) => Ok(Octets::new(alloc)),
        }
    }

    fn bodies(alloc: Global, end: &MbimEnd) -> Result<Vec<Octets>, AllocError> {
        match end {
            MbimEnd::Answer(answer) => mbim_bodies(alloc, answer),
            MbimEnd::FunctionError(_) => Ok(Vec::new(alloc)),
        }
    }
}

/// What is told of messages that were read, if that is wanted: of all of them also the whole ones.
pub fn mbim_decoding(decode: bool, request: &MbimRequest) -> Decoding
    ensures { result ≡ mbim_decoding decode request.now }
{
    if !decode {
        return Decoding::Nothing;
    }
    match request {
        MbimRequest::SmsReadAll => Decoding::Joined,
        _ => Decoding::Each,
    }
}
