ghost use Rattle.std.specs.Prelude.{◌≡◌, IfOk};
ghost use Rattle.device_core.specs.Requests.{Request, message_of};

use kit_bytes::Octets;
use qmi_requests::QmiRequest;
use qmi_services::{message_of, request, service_of};
use qmux_frame::{MessageKind, NewMessage, Sender};
use std::alloc::{AllocError, Global};

/// The whole message of a request, with this client id and this number.
#[tactic(auto, unfolding(crate::specs::Requests::message_of))]
pub fn request_message(
    alloc: Global,
    body: &QmiRequest,
    cid: u8,
    number: u8,
) -> Result<Octets, AllocError>
    ensures { IfOk result (λ message. message ≡ message_of (record { body = body.now; cid = cid; number = number })) }
{
    let tlvs = request(alloc, body)?;
    let service = service_of(body);
    let message = NewMessage {
        sender: Sender::Host,
        service,
        cid,
        flags: MessageKind::Request.flags(service),
        number: u16::from(number),
        message: message_of(body),
    };
    message.write(alloc, tlvs.as_slice())
}
