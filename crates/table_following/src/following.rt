ghost use Rattle.std.specs.Prelude.{◌≡◌, ◌≤◌, []};
ghost use Rattle.kit_io.specs.Causes.{Rose};
ghost use Rattle.kit_io.specs.Counts.{together};
ghost use Rattle.modem_routes.specs.Reaching.{LinkFails};
ghost use Rattle.modem_routes.specs.Routes.{path_in};
ghost use Rattle.table_following.specs.Following.{ComesBy, FollowsModem, VisitsBy};

use crate::command_end::{end_of, with_stops};
use crate::plan::FollowPlan;
use crate::session::table_following;
use child_io::{Kids, Spawner};
use kit_io::Sink;
use link_io::Link;
use modem_routes::{Route, reach};
use std::alloc::Global;
use tool_runs::RunEnd;

/// Goes the route to a modem, has the session of a plan with it, which shows the indications that come,
/// and stops whatever was started.
pub fn follow_modem<O: Sink, L: Link, P: Spawner>(
    alloc: Global,
    route: &Route,
    plan: &FollowPlan,
    out: &mut O,
    link: &mut L,
    spawner: &mut P,
) -> RunEnd
    ensures follows { FollowsModem (path_in route.now) plan.now
        (record { link = L.calls link.old; spawner = P.calls spawner.old; out = O.taken out.old; made = together (L.made link.old) (O.made out.old) })
        (record { link = L.calls link.new; spawner = P.calls spawner.new; out = O.taken out.new; made = together (L.made link.new) (O.made out.new) })
        result }
    ensures link_fault { result ≡ RunEnd.LinkFault → LinkFails (path_in route.now) L.faults L.open_faults link.old link.new }
    ensures start_fault { result ≡ RunEnd.StartFault → Rose (P.faults spawner.old) (P.faults spawner.new) }
    ensures write_fault { result ≡ RunEnd.WriteFault → Rose (O.faults out.old) (O.faults out.new) }
{
    let mut kids = Kids::none();
    let end = follow_on_route(alloc, route, plan, out, link, spawner, &mut kids);
    let made = link.made().saturating_add(out.made());
    let stopped = kids.stop_all(spawner, made).is_ok();
    with_stops(end, stopped)
}

// The same, but that the children are kept.
fn follow_on_route<O: Sink, L: Link, P: Spawner>(
    alloc: Global,
    route: &Route,
    plan: &FollowPlan,
    out: &mut O,
    link: &mut L,
    spawner: &mut P,
    kids: &mut Kids,
) -> RunEnd
    requires { kids.old ≡ [] }
    ensures comes { ComesBy (path_in route.now) plan.now result (L.calls link.old) (O.taken out.old) (P.calls spawner.old) kids.new (L.calls link.new) (O.taken out.new) (P.calls spawner.new) }
    ensures link_fault { result ≡ RunEnd.LinkFault → LinkFails (path_in route.now) L.faults L.open_faults link.old link.new }
    ensures start_fault { result ≡ RunEnd.StartFault → Rose (P.faults spawner.old) (P.faults spawner.new) }
    ensures write_fault { result ≡ RunEnd.WriteFault → Rose (O.faults out.old) (O.faults out.new) }
    ensures later_starts { P.faults spawner.old ≤ P.faults spawner.new }
{
    match reach(route, link, spawner, kids) {
        Ok(()) => visit(alloc, plan, out, link),
        Err(fault) => RunEnd::from(fault),
    }
}

// Has the session over a link that is open, and closes it.
fn visit<O: Sink, L: Link>(alloc: Global, plan: &FollowPlan, out: &mut O, link: &mut L) -> RunEnd
    ensures visits { VisitsBy plan.now result (L.calls link.old) (L.calls link.new) (O.taken out.old) (O.taken out.new) }
    ensures link_fault { result ≡ RunEnd.LinkFault → Rose (L.faults link.old) (L.faults link.new) }
    ensures start_fault { ¬ (result ≡ RunEnd.StartFault) }
    ensures write_fault { result ≡ RunEnd.WriteFault → Rose (O.faults out.old) (O.faults out.new) }
{
    let end = table_following(alloc, link, plan, out);
    link.close();
    match end {
        Ok(end) => end_of(end),
        Err(fault) => RunEnd::from(fault),
    }
}
