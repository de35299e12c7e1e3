ghost use Rattle.std.specs.Prelude.{◌≡◌, ◌≤◌, IfOk, length};
ghost use Rattle.mbim_frame.specs.Bodies.{command_text};
ghost use Rattle.tunnel_session.specs.Requests.{carried_message, head};

use kit_bytes::Octets;
use mbim_fragments::split;
use mbim_frame::{CommandHead, MessageKind};
use mbim_session::LONGEST_SENT;
use qmi_tunnel::wrap;
use std::alloc::{AllocError, Global};

// No message is longer.
const LONGEST_MESSAGE: usize = 65_536;

// The body of the command that carries a message.
fn body(alloc: Global, message: &[u8]) -> Result<Octets, AllocError>
    ensures body { IfOk result (λ body. body ≡ command_text head message.now) }
    ensures short { IfOk result (λ body. length body ≤ 4294967295) }
{
    if message.len() > LONGEST_MESSAGE {
        return Err(AllocError);
    }
    let command = wrap(alloc, message)?;
    let head = CommandHead {
        uuid: command.uuid,
        cid: command.cid,
        set: command.set,
    };
    let mut body = Octets::new(alloc);
    body.extend_from_slices(&head.bytes(message.len() as u32), command.buffer.as_slice())?;
    Ok(body)
}

/// The messages, one behind the other, that carry a QMUX message under this number.
#[tactic(auto, unfolding(crate::specs::Requests::carried_message))]
pub fn carried_message(alloc: Global, message: &[u8], number: u32) -> Result<Octets, AllocError>
    ensures { IfOk result (λ messages. messages ≡ carried_message message.now number) }
{
    let body = body(alloc, message)?;
    split(
        alloc,
        MessageKind::Command.number(),
        number,
        body.as_slice(),
        LONGEST_SENT,
    )
}
