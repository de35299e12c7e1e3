ghost use Rattle.std.specs.Prelude.{◌≡◌, Err};
ghost use Rattle.framing.specs.Framing.{IsMessage};
ghost use Rattle.qmux_frame.specs.Frame.{size_of};
ghost use Rattle.request_session.specs.Hearing.{ReadsAnswer};

use crate::ends::TlvAnswer;
use kit_bytes::Octets;
use link_session::SessionFault;
use qmux_frame::{Head, tlvs_in};
use std::alloc::Global;
use tlv_codec::outcome_in;

/// The answer in the whole message that begins at this place.
pub(crate) fn read_answer(
    alloc: Global,
    place: u64,
    message: &[u8],
) -> Result<TlvAnswer, SessionFault>
    requires { IsMessage size_of message.now }
    ensures { ReadsAnswer (record { place = place; bytes = message.now }) result }
{
    if !Head::read(message).framed {
        return Err(SessionFault::Broken { place });
    }
    let tlvs = tlvs_in(message);
    let Some(outcome) = outcome_in(tlvs) else {
        return Err(SessionFault::Broken { place });
    };
    let tlvs = Octets::from_slice(alloc, tlvs)?;
    Ok(TlvAnswer { outcome, tlvs })
}
