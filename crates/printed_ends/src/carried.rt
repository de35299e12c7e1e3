ghost use Rattle.std.specs.Prelude.{[], Ok, OnOk, IfOk};
ghost use Rattle.tunnel_session.specs.Peer.{tunnel_at};
ghost use Rattle.printed_ends.specs.Printed.{IsByPeer};
ghost use Rattle.printed_ends.specs.Held.{IsHeld};
ghost use Rattle.printed_ends.specs.Carried.{IsOf, Prints};

use crate::held::{Held, held_over};
use crate::printed::{Printed, print_fault, refused};
use crate::qmi;
use device_core::QmiPlan;
use link_session::SessionFault;
use peer_link::{Answerer, PeerLink};
use std::alloc::{AllocError, Global};
use tunnel_session::{TunnelEnd, tunnel_session};

/// Has the session of a QMI plan over a link to a modem that carries messages, which answers each text
/// at once.
pub fn hold_carried<A: Answerer>(
    alloc: Global,
    answerer: A,
    plan: &QmiPlan,
) -> Result<Held, AllocError>
    requires { A.has_met [] answerer }
    ensures { IfOk result (IsHeld (Prints plan.now) (tunnel_at (A.peer answerer) plan.now)) }
{
    let mut link = PeerLink::to(alloc, answerer);
    let end = tunnel_session(alloc, &mut link, plan);
    let printed = print(alloc, end)?;
    let held = held_over(&link, printed)?;
    Ok(held)
}

// What is printed where a session ended so.
fn print(alloc: Global, end: Result<TunnelEnd, SessionFault>) -> Result<Printed, AllocError>
    ensures printed { IfOk result (IsOf end) }
    ensures by_peer { OnOk result (IsByPeer end) }
{
    match end {
        Ok(end) => print_end(alloc, &end),
        Err(why) => Ok(print_fault(alloc, why)?),
    }
}

// What the MBIM modem refuses prints nothing.
fn print_end(alloc: Global, end: &TunnelEnd) -> Result<Printed, AllocError>
    ensures { IfOk result (IsOf (Ok end.now)) }
{
    match end {
        TunnelEnd::Qmi(end) => qmi::print_end(alloc, end),
        TunnelEnd::Mbim(_) | TunnelEnd::FunctionError(_) => Ok(refused(alloc)),
    }
}
