ghost use Rattle.std.specs.Prelude.{◌≡◌, [], ℕ, List, option_map};
ghost use Rattle.kit_io.specs.Causes.{Rose};
ghost use Rattle.hub_io.specs.Record.{Since};
ghost use Rattle.modem_rules.specs.Rules.{rules_view};
ghost use Rattle.sim_modem.specs.Sim.{Answering};
ghost use Rattle.served_sim.specs.Conduct.{Conduct};
ghost use Rattle.sim_serving.specs.Core.{LacksMemory, TakesMemory};
ghost use Rattle.sim_serving.specs.Proxy.{proxy_of, served};
ghost use Rattle.sim_runs.specs.Simulating.{IsHubFault, Serves, ServesProfile, asked_of, lacks_by, served_by};

use crate::SimEnd;
use hub_io::{Hub, ServeEnd};
use kit_bytes::{Kind, PathText};
use kit_io::Failed;
use modem_profile::Profile;
use modem_rules::Rules;
use ruled_modem::Ruled;
use served_sim::ServedSim;
use sim_modem::Sim;
use sim_qmi::QmiSim;
use sim_serving::{serve_sim, serve_so};
use sim_task::SimTask;
use sim_tunnel::TunnelSim;
use std::alloc::{AllocError, Global};

// Serves the clients of a simulated modem that has this profile, and goes by the rules, if any were given.
pub fn serve_profile<H: Hub>(
    alloc: Global,
    task: &SimTask,
    rules: Option<Rules>,
    profile: &Profile,
    hub: &mut H,
) -> SimEnd
    ensures serves { Since (H.calls hub.old) (H.calls hub.new) (ServesProfile (asked_of task.now (option_map rules_view rules)) profile.now result) }
    ensures own { ¬ (result ≡ SimEnd.ReadFault) }
    ensures never_lost { ¬ (result ≡ SimEnd.Served ServeEnd.Lost) }
    ensures hub_fault { IsHubFault result → Rose (H.faults hub.old) (H.faults hub.new) }
{
    let (socket, turns) = (&task.socket, task.turns);
    match task.kind {
        Kind::Qmi => match QmiSim::open(alloc, profile) {
            Ok(sim) => serve_by(alloc, Kind::Qmi, rules, socket, sim, turns, hub),
            Err(AllocError) => SimEnd::OutOfMemory,
        },
        Kind::Mbim => match TunnelSim::open(alloc, profile) {
            Ok(sim) => serve_by(alloc, Kind::Mbim, rules, socket, sim, turns, hub),
            Err(AllocError) => SimEnd::OutOfMemory,
        },
    }
}

// Serves the clients of a simulated modem of a kind, which goes by the rules, if any were given.
fn serve_by<H: Hub, S: Sim>(
    alloc: Global,
    kind: Kind,
    rules: Option<Rules>,
    socket: &PathText,
    sim: S,
    turns: u64,
    hub: &mut H,
) -> SimEnd
    requires { (answers : Answering) × S.keeps answers [] sim }
    ensures serves { (answers : Answering) → S.keeps answers [] sim →
        Since (H.calls hub.old) (H.calls hub.new) (Serves (lacks_by (option_map rules_view rules)) (served_by kind S.Framing.size (option_map rules_view rules) answers) socket.now turns result) }
    ensures own { ¬ (result ≡ SimEnd.ReadFault) }
    ensures never_lost { ¬ (result ≡ SimEnd.Served ServeEnd.Lost) }
    ensures hub_fault { IsHubFault result → Rose (H.faults hub.old) (H.faults hub.new) }
{
    match rules {
        None => serve_at(alloc, socket, sim, turns, hub),
        Some(rules) => match Ruled::open(alloc, kind, rules, sim) {
            Ok(ruled) => serve_so_at(alloc, socket, ruled, turns, hub),
            Err(AllocError) => SimEnd::OutOfMemory,
        },
    }
}

// Opens the hub, and serves the clients of a simulated modem.
fn serve_at<H: Hub, S: Sim>(
    alloc: Global,
    socket: &PathText,
    sim: S,
    turns: u64,
    hub: &mut H,
) -> SimEnd
    requires { (answers : Answering) × S.keeps answers [] sim }
    ensures serves { (answers : Answering) → S.keeps answers [] sim →
        Since (H.calls hub.old) (H.calls hub.new) (Serves TakesMemory (proxy_of S.Framing.size answers) socket.now turns result) }
    ensures own { ¬ (result ≡ SimEnd.ReadFault) }
    ensures never_lost { ¬ (result ≡ SimEnd.Served ServeEnd.Lost) }
    ensures hub_fault { IsHubFault result → Rose (H.faults hub.old) (H.faults hub.new) }
{
    match hub.open(socket.value().as_str(), None) {
        Ok(()) => SimEnd::Served(serve_sim(alloc, hub, sim, turns)),
        Err(Failed) => SimEnd::HubFault,
    }
}

// The same of one that may hang its clients up, and to which the clock may matter.
fn serve_so_at<H: Hub, S: ServedSim>(
    alloc: Global,
    socket: &PathText,
    sim: S,
    turns: u64,
    hub: &mut H,
) -> SimEnd
    requires { (conduct : Conduct) × S.keeps 0 conduct [] sim }
    ensures serves { (conduct : Conduct) → S.keeps 0 conduct [] sim →
        Since (H.calls hub.old) (H.calls hub.new) (Serves (LacksMemory S.by_clock) (served S.Framing.size conduct) socket.now turns result) }
    ensures own { ¬ (result ≡ SimEnd.ReadFault) }
    ensures never_lost { ¬ (result ≡ SimEnd.Served ServeEnd.Lost) }
    ensures hub_fault { IsHubFault result → Rose (H.faults hub.old) (H.faults hub.new) }
{
    match hub.open(socket.value().as_str(), None) {
        Ok(()) => SimEnd::Served(serve_so(alloc, hub, sim, turns)),
        Err(Failed) => SimEnd::HubFault,
    }
}
