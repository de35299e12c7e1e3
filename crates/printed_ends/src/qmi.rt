ghost use Rattle.std.specs.Prelude.{◌≡◌, [], Ok, OnOk, IfOk};
ghost use Rattle.device_core.specs.Hearing.{failure_in};
ghost use Rattle.device_core.specs.Peer.{session_at};
ghost use Rattle.printed_ends.specs.Printed.{IsByPeer, status_by};
ghost use Rattle.printed_ends.specs.Held.{IsHeld};
ghost use Rattle.printed_ends.specs.Qmi.{IsOf, Prints};

use crate::held::{Held, held_over};
use crate::printed::{Printed, print_fault};
use device_core::{QmiPlan, qmi_session};
use link_session::SessionFault;
use peer_link::{Answerer, PeerLink};
use qmi_services::{QmiAnswer, QmiEnd};
use qmicli_print::qmi_text;
use std::alloc::{AllocError, Global};

/// Has the session of a QMI plan over a link to whoever answers each text at once.
pub fn hold_qmi<A: Answerer>(alloc: Global, answerer: A, plan: &QmiPlan) -> Result<Held, AllocError>
    requires { A.has_met [] answerer }
    ensures { IfOk result (IsHeld Prints (session_at (A.peer answerer) plan.now)) }
{
    let mut link = PeerLink::to(alloc, answerer);
    let end = qmi_session(alloc, &mut link, plan);
    let printed = print(alloc, end)?;
    let held = held_over(&link, printed)?;
    Ok(held)
}

// What is printed where a session ended so.
fn print(alloc: Global, end: Result<QmiEnd, SessionFault>) -> Result<Printed, AllocError>
    ensures printed { IfOk result (IsOf end) }
    ensures by_peer { OnOk result (IsByPeer end) }
{
    match end {
        Ok(end) => print_end(alloc, &end),
        Err(why) => Ok(print_fault(alloc, why)?),
    }
}

/// What is printed where a session ended with this.
pub(crate) fn print_end(alloc: Global, end: &QmiEnd) -> Result<Printed, AllocError>
    ensures { IfOk result (IsOf (Ok end.now)) }
{
    Ok(Printed {
        text: qmi_text(alloc, end)?,
        status: status(&end.answer),
    })
}

fn status(answer: &QmiAnswer) -> u8
    ensures { result ≡ status_by (failure_in answer.now) }
{
    match answer {
        QmiAnswer::Success(_) => 0,
        QmiAnswer::Failure(_) => 1,
    }
}
