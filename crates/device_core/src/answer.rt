ghost use Rattle.std.specs.Prelude.{◌≡◌, IsSome, Some};
ghost use Rattle.framing.specs.Framing.{IsMessage};
ghost use Rattle.qmux_frame.specs.Frame.{size_of};
ghost use Rattle.device_core.specs.Session.{Reads, allocated_in};

use link_session::SessionFault;
use qmi_requests::QmiRequest;
use qmi_services::{AnswerFault, QmiAnswer, answer};
use qmux_frame::{Head, tlvs_in};
use std::alloc::Global;
use tlv_codec::tlv_value;

/// The type of the TLV of Allocate CID's answer that holds a service and a client id.
const ALLOCATION: u8 = 0x01;

/// What the whole message that begins at this place says to a request.
pub fn read(
    alloc: Global,
    body: &QmiRequest,
    place: u64,
    message: &[u8],
) -> Result<QmiAnswer, SessionFault>
    requires { IsMessage size_of message.now }
    ensures { Reads body.now (record { place = place; bytes = message.now }) result }
{
    if !Head::read(message).framed {
        return Err(SessionFault::Broken { place });
    }
    match answer(alloc, body, tlvs_in(message)) {
        Ok(answer) => Ok(answer),
        Err(AnswerFault::Unread) => Err(SessionFault::Broken { place }),
        Err(AnswerFault::OutOfMemory) => Err(SessionFault::OutOfMemory),
    }
}

/// The client id that these TLVs allocate.
pub fn allocated(tlvs: &[u8]) -> u8
    requires { IsSome (allocated_in tlvs.now) }
    ensures { allocated_in tlvs.now ≡ Some result }
{
    allocation(tlvs).unwrap()
}

// The second number of the first Allocation, if there is one.
fn allocation(tlvs: &[u8]) -> Option<u8>
    ensures { result ≡ allocated_in tlvs.now }
{
    tlv_value(tlvs, ALLOCATION)?.get(1).copied()
}
