ghost use Rattle.std.specs.Prelude.{◌≡◌, ◌≤◌, length, IfSome};
ghost use Rattle.mbim_frame.specs.Bodies.{read_command};
ghost use Rattle.ruled_modem.specs.Requests.{command_in, kind_of, request_in};

use kit_bytes::Kind;
use mbim_frame::{CommandHead, FragmentHead, MHead, body_in};
use modem_rules::RequestKind;
use qmux_frame::{Head, MessageKind};

/// The head of a QMI request, where the message is one.
pub(crate) fn request_in(message: &[u8]) -> Option<Head>
    ensures { result ≡ request_in message.now }
{
    if message.len() < 12 {
        return None;
    }
    let head = Head::read(message);
    if head.framed && head.kind() == MessageKind::Request {
        Some(head)
    } else {
        None
    }
}

/// The head of an MBIM command, where the message is a whole one.
pub(crate) fn command_in(message: &[u8]) -> Option<CommandHead>
    ensures exact { result ≡ command_in message.now }
    ensures whole { IfSome result (λ head. 48 ≤ length message.now) }
{
    if message.len() < 20 {
        return None;
    }
    let fragment = FragmentHead::read(message);
    let command = mbim_frame::MessageKind::Command.number();
    if MHead::read(message).kind == command && fragment.total == 1 && fragment.current == 0 {
        let head = head_of_body(body_in(message))?;
        Some(head)
    } else {
        None
    }
}

// The head of a body, which then is as long.
fn head_of_body(body: &[u8]) -> Option<CommandHead>
    ensures exact { result ≡ read_command body.now }
    ensures long { IfSome result (λ head. 28 ≤ length body.now) }
{
    let head = CommandHead::read(body)?;
    Some(head)
}

/// What kind of request a message is, where it is a whole one.
pub(crate) fn kind_of(kind: Kind, message: &[u8]) -> Option<RequestKind>
    ensures { result ≡ kind_of kind message.now }
{
    match kind {
        Kind::Qmi => {
            let head = request_in(message)?;
            Some(RequestKind::Message {
                service: head.service,
                message: head.message,
            })
        }
        Kind::Mbim => {
            let head = command_in(message)?;
            Some(RequestKind::Command {
                service: head.uuid,
                command: head.cid,
            })
        }
    }
}
