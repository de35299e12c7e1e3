ghost use Rattle.std.specs.Prelude.{◌≡◌, ◌≤◌, IfOk, length};
ghost use Rattle.mbim_frame.specs.Bodies.{command_text};
ghost use Rattle.mbim_session.specs.Requests.{buffer_for, command_head, command_message, is_of};

use kit_bytes::Octets;
use mbim_fragments::split;
use mbim_frame::{CommandHead, MHead, MessageKind};
use mbim_requests::MbimRequest;
use mbim_services::command;
use std::alloc::{AllocError, Global};

/// The messages of a session have at most so many bytes.
pub const LONGEST_SENT: u32 = 4_096;

// The body of the message that carries the command of a request whole.
fn command_body(alloc: Global, request: &MbimRequest) -> Result<Octets, AllocError>
    ensures body { IfOk result (λ body. body ≡ command_text (command_head request.now) (buffer_for request.now)) }
    ensures short { IfOk result (λ body. length body ≤ 4294967295) }
{
    let command = command(alloc, request)?;
    let head = CommandHead {
        uuid: command.uuid,
        cid: command.cid,
        set: command.set,
    };
    let buffer = command.buffer.as_slice();
    let mut body = Octets::new(alloc);
    body.extend_from_slices(&head.bytes(buffer.len() as u32), buffer)?;
    Ok(body)
}

/// The messages, one behind the other, that carry the command of a request under this number.
#[tactic(auto, unfolding(crate::specs::Requests::command_message))]
pub fn command_message(
    alloc: Global,
    request: &MbimRequest,
    number: u32,
) -> Result<Octets, AllocError>
    ensures { IfOk result (λ messages. messages ≡ command_message request.now number) }
{
    let body = command_body(alloc, request)?;
    split(
        alloc,
        MessageKind::Command.number(),
        number,
        body.as_slice(),
        LONGEST_SENT,
    )
}
