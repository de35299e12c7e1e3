ghost use Rattle.std.specs.Prelude.{◌≡◌, [], Ok, OnOk, IfOk};
ghost use Rattle.mbim_session.specs.Peer.{session_at};
ghost use Rattle.twin_sessions.specs.MbimRuns.{status_in};
ghost use Rattle.printed_ends.specs.Printed.{IsByPeer, status_by};
ghost use Rattle.printed_ends.specs.Held.{IsHeld};
ghost use Rattle.printed_ends.specs.Mbim.{IsOf, Prints};

use crate::held::{Held, held_over};
use crate::printed::{Printed, print_fault, refused};
use link_session::SessionFault;
use mbim_services::MbimAnswer;
use mbim_session::{MbimEnd, MbimPlan, mbim_session};
use mbimcli_print::mbim_text;
use peer_link::{Answerer, PeerLink};
use std::alloc::{AllocError, Global};

/// Has the session of an MBIM plan over a link to whoever answers each text at once.
pub fn hold_mbim<A: Answerer>(
    alloc: Global,
    answerer: A,
    plan: &MbimPlan,
) -> Result<Held, AllocError>
    requires { A.has_met [] answerer }
    ensures { IfOk result (IsHeld Prints (session_at (A.peer answerer) plan.now)) }
{
    let mut link = PeerLink::to(alloc, answerer);
    let end = mbim_session(alloc, &mut link, plan);
    let printed = print(alloc, end)?;
    let held = held_over(&link, printed)?;
    Ok(held)
}

// What is printed where a session ended so.
fn print(alloc: Global, end: Result<MbimEnd, SessionFault>) -> Result<Printed, AllocError>
    ensures printed { IfOk result (IsOf end) }
    ensures by_peer { OnOk result (IsByPeer end) }
{
    match end {
        Ok(end) => print_end(alloc, &end),
        Err(why) => Ok(print_fault(alloc, why)?),
    }
}

fn print_end(alloc: Global, end: &MbimEnd) -> Result<Printed, AllocError>
    ensures { IfOk result (IsOf (Ok end.now)) }
{
    match end {
        MbimEnd::Answer(answer) => Ok(Printed {
            text: mbim_text(alloc, answer)?,
            status: status(answer),
        }),
        MbimEnd::FunctionError(_) => Ok(refused(alloc)),
    }
}

fn status(answer: &MbimAnswer) -> u8
    ensures { result ≡ status_by (status_in answer.now) }
{
    match answer {
        MbimAnswer::Success(_, _) => 0,
        MbimAnswer::Failure(_) => 1,
    }
}
