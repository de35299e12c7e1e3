ghost use Rattle.std.specs.Prelude.{◌≡◌, ◌≢◌, ◌⊎◌, ◌+◌, ◌≤◌, [], ◌∷◌, length, map, string_bytes, is_ok, Err, OnErr};
ghost use Rattle.kit_io.specs.Causes.{HasCause, Rose};
ghost use Rattle.kit_io.specs.Growth.{Grows};
ghost use Rattle.link_io.specs.Target.{address_of};
ghost use Rattle.link_io.specs.Calls.{Opened};
ghost use Rattle.modem_routes.specs.Routes.{path_in, words_in};
ghost use Rattle.modem_routes.specs.Reaching.{StartsPumps, StartsBy, StartsMore, Reaches, ReachesAtOnce, ReachesBehindPumps, ReachesByProxy, ReachesBy, OpensInTime, LinkFails};

use crate::route::{Device, Pumps, Route};
use child_io::{KIDS_LIMIT, Kids, Spawner};
use kit_io::Failed;
use link_io::{Link, Target};

/// How often a link to a proxy is opened at most once the proxy was started.
const FURTHER_OPENINGS: u32 = 19;

/// Why a modem wasn't reached.
#[derive(Clone, Copy, PartialEq, Eq)]
pub enum ReachFault {
    /// A call on the link failed.
    LinkFault,
    /// A child wasn't started.
    StartFault,
    /// The proxy that was started never listened.
    NoProxy,
}

/// Starts the pumps of a node, and keeps them beside the children that are kept already.
pub fn start_more_pumps<P: Spawner>(
    pumps: &Pumps,
    spawner: &mut P,
    kids: &mut Kids,
) -> Result<(), Failed>
    requires { length kids.old + 2 ≤ KIDS_LIMIT }
    ensures starts { StartsMore (StartsPumps (words_in pumps.now) (is_ok result)) (P.calls spawner.old) kids.old kids.new (P.calls spawner.new) }
    ensures few { length kids.new ≤ length kids.old + 2 }
    ensures cause { HasCause (P.faults spawner.old) (P.faults spawner.new) result }
{
    kids.start(spawner, &pumps.reads)?;
    match kids.start(spawner, &pumps.writes) {
        Ok(_) => Ok(()),
        Err(Failed) => Err(Failed),
    }
}

/// Starts the pumps of a node, and keeps them.
pub fn start_pumps<P: Spawner>(
    pumps: &Pumps,
    spawner: &mut P,
    kids: &mut Kids,
) -> Result<(), Failed>
    requires { kids.old ≡ [] }
    ensures starts { StartsBy (StartsPumps (words_in pumps.now) (is_ok result)) (P.calls spawner.old) kids.new (P.calls spawner.new) }
    ensures cause { HasCause (P.faults spawner.old) (P.faults spawner.new) result }
{
    start_more_pumps(pumps, spawner, kids)
}

/// Goes the route to a modem: opens the link, and starts what has to be there. At an error the link is
/// closed; the children that were started are kept in any case.
#[tactic(auto, using(crate::proofs::Coming::came_at_once))]
pub fn reach<L: Link, P: Spawner>(
    route: &Route,
    link: &mut L,
    spawner: &mut P,
    kids: &mut Kids,
) -> Result<(), ReachFault>
    requires { kids.old ≡ [] }
    ensures reaches { ReachesBy (Reaches (path_in route.now) result) (L.calls link.old) (P.calls spawner.old) kids.new (L.calls link.new) (P.calls spawner.new) }
    ensures link_fault { result ≡ Err ReachFault.LinkFault → LinkFails (path_in route.now) L.faults L.open_faults link.old link.new }
    ensures start_fault { result ≡ Err ReachFault.StartFault → Rose (P.faults spawner.old) (P.faults spawner.new) }

    ensures later { L.faults link.old ≤ L.faults link.new }
    ensures later_open { L.open_faults link.old ≤ L.open_faults link.new }
    ensures later_starts { P.faults spawner.old ≤ P.faults spawner.new }
{
    match route {
        Route::Direct(Device::AtOnce(target)) => reach_at_once(target, link),
        Route::Direct(Device::BehindPumps(target, pumps)) => {
            reach_behind_pumps(target, pumps, link, spawner, kids)
        }
        Route::ByProxy(target, words) => reach_by_proxy(target, words, link, spawner, kids),
    }
}

fn reach_at_once<L: Link>(target: &Target, link: &mut L) -> Result<(), ReachFault>
    ensures opens { Grows (L.calls link.old) (Opened (address_of target.now) (is_ok result) ∷ []) (L.calls link.new) }
    ensures error { OnErr result (result ≡ Err ReachFault.LinkFault) }
    ensures cause { HasCause (L.open_faults link.old) (L.open_faults link.new) result }
    ensures later { L.faults link.old ≤ L.faults link.new }
{
    match link.open(target) {
        Ok(()) => Ok(()),
        Err(Failed) => Err(ReachFault::LinkFault),
    }
}

fn reach_behind_pumps<L: Link, P: Spawner>(
    target: &Target,
    pumps: &Pumps,
    link: &mut L,
    spawner: &mut P,
    kids: &mut Kids,
) -> Result<(), ReachFault>
    requires { kids.old ≡ [] }
    ensures reaches { ReachesBy (ReachesBehindPumps (address_of target.now) (words_in pumps.now) result) (L.calls link.old) (P.calls spawner.old) kids.new (L.calls link.new) (P.calls spawner.new) }
    ensures link_fault { result ≡ Err ReachFault.LinkFault → Rose (L.faults link.old) (L.faults link.new) ⊎ Rose (L.open_faults link.old) (L.open_faults link.new) }
    ensures start_fault { result ≡ Err ReachFault.StartFault → Rose (P.faults spawner.old) (P.faults spawner.new) }

    ensures later { L.faults link.old ≤ L.faults link.new }
    ensures later_open { L.open_faults link.old ≤ L.open_faults link.new }
    ensures later_starts { P.faults spawner.old ≤ P.faults spawner.new }
{
    if let Err(Failed) = link.open(target) {
        return Err(ReachFault::LinkFault);
    }
    if let Err(Failed) = start_pumps(pumps, spawner, kids) {
        link.close();
        return Err(ReachFault::StartFault);
    }
    if let Err(Failed) = link.pair() {
        link.close();
        return Err(ReachFault::LinkFault);
    }
    Ok(())
}

fn reach_by_proxy<L: Link, P: Spawner>(
    target: &Target,
    words: &[String],
    link: &mut L,
    spawner: &mut P,
    kids: &mut Kids,
) -> Result<(), ReachFault>
    requires { kids.old ≡ [] }
    ensures reaches { ReachesBy (ReachesByProxy (address_of target.now) (map string_bytes words.now) result) (L.calls link.old) (P.calls spawner.old) kids.new (L.calls link.new) (P.calls spawner.new) }
    ensures no_link_fault { result ≢ Err ReachFault.LinkFault }
    ensures start_fault { result ≡ Err ReachFault.StartFault → Rose (P.faults spawner.old) (P.faults spawner.new) }

    ensures later { L.faults link.old ≤ L.faults link.new }
    ensures later_open { L.open_faults link.old ≤ L.open_faults link.new }
    ensures later_starts { P.faults spawner.old ≤ P.faults spawner.new }
{
    if let Ok(()) = link.open(target) {
        return Ok(());
    }
    if let Err(Failed) = kids.start(spawner, words) {
        return Err(ReachFault::StartFault);
    }
    open_in_time(target, link)
}

// Opens the link to a proxy that was started, as soon as it is there.
fn open_in_time<L: Link>(target: &Target, link: &mut L) -> Result<(), ReachFault>
    ensures opens { OpensInTime (address_of target.now) result (L.calls link.old) (L.calls link.new) }
    ensures no_link_fault { result ≢ Err ReachFault.LinkFault }
    ensures no_start_fault { result ≢ Err ReachFault.StartFault }

    ensures later { L.faults link.old ≤ L.faults link.new }
    ensures later_open { L.open_faults link.old ≤ L.open_faults link.new }
{
    for _ in 0..FURTHER_OPENINGS {
        if let Ok(()) = link.open(target) {
            return Ok(());
        }
    }
    Err(ReachFault::NoProxy)
}
