ghost use Rattle.std.specs.Prelude.{◌≡◌, ◌≤◌, Ok, Err};
ghost use Rattle.kit_io.specs.Causes.{Rose};
ghost use Rattle.qmux_frame.specs.Frame.{size_of};
ghost use Rattle.link_session.specs.Waiting.{Heard};
ghost use Rattle.link_session.specs.Hearing.{Stands};
ghost use Rattle.table_following.specs.Session.{Asked, GrowBy, Session};

use crate::end::FollowedEnd;
use crate::plan::FollowPlan;
use crate::telling::tell;
use kit_io::Sink;
use link_following::FollowEnd;
use link_io::Link;
use link_session::{Incoming, SessionFault};
use qmux_frame::Qmux;
use request_session::{Access, Client, leave, reach, send_request};
use std::alloc::Global;

/// A whole session for a request by tables over a link that is open, behind whose answer the
/// indications for its client are shown as they come.
///
/// Where the other side has ended the link nothing more is asked. Else the client id is given back
/// behind the last turn, unless it is kept.
pub fn table_following<L: Link, O: Sink>(
    alloc: Global,
    link: &mut L,
    plan: &FollowPlan,
    out: &mut O,
) -> Result<FollowedEnd, SessionFault>
    ensures session { GrowBy (Session plan.now result) (L.calls link.old) (L.calls link.new) (O.taken out.old) (O.taken out.new) }
    ensures link_fault { result ≡ Err SessionFault.LinkFault → Rose (L.faults link.old) (L.faults link.new) }
    ensures write_fault { result ≡ Ok (FollowedEnd.Followed FollowEnd.WriteFault) → Rose (O.faults out.old) (O.faults out.new) }
    ensures later { L.faults link.old ≤ L.faults link.new }
    ensures later_open { L.open_faults link.old ≤ L.open_faults link.new }
{
    let mut incoming = Incoming::open(alloc)?;
    let access = reach(alloc, link, &mut incoming, plan.session())?;
    match access {
        Access::Client(client) => ask(alloc, link, &mut incoming, plan, client, out),
        Access::Refused(error) => Ok(FollowedEnd::Refused(error)),
    }
}

/// Sends the request with this client id, tells what comes, and gives the client id back.
fn ask<L: Link, O: Sink>(
    alloc: Global,
    link: &mut L,
    incoming: &mut Incoming<Qmux>,
    plan: &FollowPlan,
    client: Client,
    out: &mut O,
) -> Result<FollowedEnd, SessionFault>
    ensures asks { (heard : Heard) → Stands size_of incoming.old heard
        → GrowBy (Asked plan.now client heard result) (L.calls link.old) (L.calls link.new) (O.taken out.old) (O.taken out.new) }
    ensures link_fault { result ≡ Err SessionFault.LinkFault → Rose (L.faults link.old) (L.faults link.new) }
    ensures write_fault { result ≡ Ok (FollowedEnd.Followed FollowEnd.WriteFault) → Rose (O.faults out.old) (O.faults out.new) }
    ensures later { L.faults link.old ≤ L.faults link.new }
    ensures later_open { L.open_faults link.old ≤ L.open_faults link.new }
{
    let answer = send_request(alloc, link, incoming, plan.session(), client)?;
    let told = tell(alloc, link, incoming, plan, client, &answer, out)?;
    if told.is_link_end() {
        return Ok(told);
    }
    leave(alloc, link, incoming, plan.session(), client)?;
    Ok(told)
}
