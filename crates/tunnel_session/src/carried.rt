//! What the answer to a carried request is.

ghost use Rattle.std.specs.Prelude.{◌≡◌, ◌≢◌, ◌≤◌, Err, IfOk, IsTrue, List, length};
ghost use Rattle.framing.specs.Framing.{IsMessage};
ghost use Rattle.qmux_frame.specs.Frame.{size_of};
ghost use Rattle.link_session.specs.Marks.{Placed};
ghost use Rattle.mbim_session.specs.Hearing.{HasReply};
ghost use Rattle.tunnel_session.specs.Carried as spec;
ghost use Rattle.tunnel_session.specs.Carried.{IsWhole, Reads};

use crate::ends::TunnelEnd;
use device_core::Wanted;
use kit_bytes::{Octets, u32_at};
use link_session::SessionFault;
use mbim_frame::{DoneHead, buffer_in};
use mbim_session::CommandAnswer;
use qmi_tunnel::unwrap;
use std::alloc::Global;

/// A whole message that was carried.
#[derive(Drop)]
pub(crate) struct Message {
    /// Where the answer begins that carries it.
    pub(crate) place: u64,
    pub(crate) bytes: Octets,
}

/// What came for a carried request.
#[derive(Drop)]
pub(crate) enum Carried {
    /// Its answer.
    Message(Message),
    /// The MBIM modem refused it, and so ends the session.
    Refused(TunnelEnd),
}

/// What has come, the last message of which begins at this place.
pub(crate) fn read(
    alloc: Global,
    wanted: Wanted,
    coming: &CommandAnswer,
    place: u64,
    message: &[u8],
) -> Result<Carried, SessionFault>
    requires { 12 ≤ length message.now }
    ensures reads { (before : List Placed) → HasReply coming.now before (record { place = place; bytes = message.now })
        → Reads wanted coming.now.number before (record { place = place; bytes = message.now }) result }
    ensures whole { IfOk result IsWhole }
    ensures no_link_fault { result ≢ Err SessionFault.LinkFault }
{
    if coming.is_error(message) {
        return read_error(place, message);
    }
    read_body(alloc, wanted, coming.begin(place), coming.body())
}

// A FUNCTION_ERROR that begins at this place.
fn read_error(place: u64, message: &[u8]) -> Result<Carried, SessionFault>
    ensures reads { result ≡ spec.error_in (record { place = place; bytes = message.now }) }
    ensures whole { IfOk result IsWhole }
{
    if message.len() != 16 {
        return Err(SessionFault::Broken { place });
    }
    let end = TunnelEnd::FunctionError(u32_at(message, 12));
    Ok(Carried::Refused(end))
}

// A done with this body that begins at this place.
fn read_body(
    alloc: Global,
    wanted: Wanted,
    begin: u64,
    body: &[u8],
) -> Result<Carried, SessionFault>
    ensures reads { result ≢ Err SessionFault.OutOfMemory → result ≡ spec.done_in wanted begin body.now }
    ensures whole { IfOk result IsWhole }
    ensures no_link_fault { result ≢ Err SessionFault.LinkFault }
{
    let Some(head) = DoneHead::read(body) else {
        return Err(SessionFault::Broken { place: begin });
    };
    if head.status != 0 {
        return Ok(Carried::Refused(TunnelEnd::Mbim(head.status)));
    }
    let buffer = buffer_in(body);
    if !is_reply(wanted, buffer) {
        return Err(SessionFault::Broken { place: begin });
    }
    let bytes = Octets::from_slice(alloc, buffer)?;
    Ok(Carried::Message(Message {
        place: begin,
        bytes,
    }))
}

// Whether a buffer is the answer, whole and framed.
fn is_reply(wanted: Wanted, buffer: &[u8]) -> bool
    ensures reply { result ≡ spec.is_reply wanted buffer.now }
    ensures whole { IsTrue result → IsMessage size_of buffer.now }
{
    match unwrap(buffer) {
        Ok(head) => head.framed && wanted.is_answered_by(buffer),
        Err(_) => false,
    }
}
