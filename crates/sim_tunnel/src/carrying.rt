//! Which commands carry a QMI message, and what the QMI modem sends for it.

ghost use Rattle.std.specs.Prelude.{◌≡◌, ◌≤◌, ℕ, List, length, option_copied, IfOk, OnOk};
ghost use Rattle.mbim_fragments.specs.Assembling.{assembled_after, joining_behind};
ghost use Rattle.mbim_fragments.specs.Runs.{longest_body};
ghost use Rattle.sim_mbim.specs.Answers.{begun_at_request, request_of};
ghost use Rattle.sim_modem.specs.Sim.{Answering};
ghost use Rattle.sim_qmi.specs.Modem.{Keeps};
ghost use Rattle.sim_tunnel.specs.Carrying as spec;

use kit_bytes::Octets;
use mbim_fragments::{Assembly, Body, Took};
use mbim_frame::{CommandHead, buffer_in};
use qmi_tunnel::{QMI_MESSAGE, QMI_SERVICE, unwrap};
use sim_mbim::Request;
use sim_modem::Sim;
use sim_qmi::QmiSim;
use std::alloc::{AllocError, Global};
use uuid::Uuid;

/// The head of a command that carries a QMI message.
pub(crate) fn carrier() -> CommandHead
    ensures { result ≡ spec.carrier }
{
    CommandHead {
        uuid: Uuid::from_bytes(QMI_SERVICE),
        cid: QMI_MESSAGE,
        set: true,
    }
}

/// What the command carries that a message completes, if it does. What came of it before has begun.
pub(crate) fn carried<'a>(
    begun: &mut Assembly,
    body: &'a mut Body,
    message: &[u8],
) -> Option<&'a [u8]>
    requires { 12 ≤ length message.now }
    ensures carried { option_copied result ≡ spec.carried_at message.now begun.old (request_of message.now) }
    ensures begun { begun.new ≡ begun_at_request message.now begun.old (request_of message.now) }
{
    match Request::read(message) {
        Request::Command => take(begun, body, message),
        Request::Open(_) | Request::Close | Request::Wrong | Request::Other => None,
    }
}

// The same of a fragment of a command.
fn take<'a>(begun: &mut Assembly, body: &'a mut Body, fragment: &[u8]) -> Option<&'a [u8]>
    requires { 20 ≤ length fragment.now }
    ensures carried { option_copied result ≡ spec.carried_whole (joining_behind longest_body begun.old fragment.now) }
    ensures begun { begun.new ≡ assembled_after longest_body begun.old fragment.now }
{
    match begun.take(fragment, body) {
        Took::Message => carried_in(body.as_slice()),
        Took::More | Took::OutOfSequence | Took::TooLong => None,
    }
}

// What the command carries that has this body, if it has one.
fn carried_in(body: &[u8]) -> Option<&[u8]>
    ensures { option_copied result ≡ spec.carried_in body.now }
{
    let head = CommandHead::read(body)?;
    if !carries(&head) {
        return None;
    }
    Some(buffer_in(body))
}

// Whether this is the head of a command that carries a message.
fn carries(head: &CommandHead) -> bool
    ensures { result ≡ spec.carries head.now }
{
    head.set && head.uuid == Uuid::from_bytes(QMI_SERVICE) && head.cid == QMI_MESSAGE
}

/// The messages that the QMI modem sends for a buffer. It is sent whole messages alone.
pub(crate) fn ask(alloc: Global, qmi: &mut QmiSim, buffer: &[u8]) -> Result<Octets, AllocError>
    ensures said { IfOk result (λ messages. (answering : Answering) (met : List (List ℕ)) → Keeps answering met qmi.old → messages ≡ spec.said answering met buffer.now) }
    ensures keeps { OnOk result ((answering : Answering) (met : List (List ℕ)) → Keeps answering met qmi.old → Keeps answering (spec.met_then met buffer.now) qmi.new) }
{
    match unwrap(buffer) {
        Ok(_) => Ok(qmi.ask(buffer)?),
        Err(_) => Ok(Octets::new(alloc)),
    }
}
