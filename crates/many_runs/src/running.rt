ghost use Rattle.std.specs.Prelude.{◌≡◌, ◌≤◌, ◌<◌, ◌⊎◌, [], length, map, false};
ghost use Rattle.std.specs.Str.{encode_utf8_all};
ghost use Rattle.kit_io.specs.Causes.{Rose};
ghost use Rattle.modem_routes.specs.Reaching.{StartsBy};
ghost use Rattle.many_runs.specs.Places.{addresses_in, places_of, pumps_among, StandFor};
ghost use Rattle.many_runs.specs.Running.{IsHubsFault, asked_by, Serves, ServesMany, ServesPlaces};

use crate::devices::Devices;
use crate::opening::{NotOpened, open_devices};
use child_io::{Kids, Spawner};
use hub_io::ServeEnd;
use many_io::ManyHub;
use many_served::{ManySettings, serve_many};
use std::alloc::{AllocError, Global};

/// How a proxy of several devices ended.
#[derive(Clone, Copy, PartialEq, Eq)]
pub enum ManyEnd {
    /// It served, and ended for this reason.
    Served(ServeEnd),
    NotOpened(NotOpened),
    /// No memory was there before.
    NoMemory,
}

/// How it ended, and whether each child that it had started was stopped.
#[derive(Clone, Copy, PartialEq, Eq)]
pub struct ManyRun {
    pub end: ManyEnd,
    pub stopped: bool,
}

/// Serves several devices to the clients of a socket, over a bridge each where they are nodes, and
/// stops whatever was started.
pub fn run_many<M: ManyHub, P: Spawner>(
    alloc: Global,
    socket: &str,
    bridge: &str,
    settings: &ManySettings<'_>,
    many: &mut M,
    spawner: &mut P,
) -> ManyRun
    requires some { 0 < length settings.now.devices.now }
    requires few { length settings.now.devices.now ≤ 8 }
    requires hub { M.devices many.old ≡ length settings.now.devices.now }
    ensures serves { ServesMany socket.now bridge.now (asked_by settings.now) (M.calls many.old) (P.calls spawner.old) result (M.calls many.new) (M.made many.new) (P.calls spawner.new) }
    ensures hub_fault { IsHubsFault result.end → Rose (M.faults many.old) (M.faults many.new) }
    ensures start_fault { (result.end ≡ ManyEnd.NotOpened NotOpened.Start) ⊎ (result.stopped ≡ false) → Rose (P.faults spawner.old) (P.faults spawner.new) }
{
    match Devices::at(alloc, settings.devices, bridge) {
        Ok(devices) => run_devices(alloc, socket, &devices, settings, many, spawner),
        Err(AllocError) => ManyRun {
            end: ManyEnd::NoMemory,
            stopped: true,
        },
    }
}

// The same where the devices are known.
fn run_devices<M: ManyHub, P: Spawner>(
    alloc: Global,
    socket: &str,
    devices: &Devices,
    settings: &ManySettings<'_>,
    many: &mut M,
    spawner: &mut P,
) -> ManyRun
    requires some { 0 < length settings.now.devices.now }
    requires room { length devices.now.targets.items ≤ M.devices many.old }
    requires few { length devices.now.pumps.items ≤ 8 }
    requires hub { M.devices many.old ≡ length settings.now.devices.now }
    ensures serves { ServesPlaces socket.now (addresses_in devices.now) (pumps_among devices.now) (asked_by settings.now) (M.calls many.old) (P.calls spawner.old) result (M.calls many.new) (M.made many.new) (P.calls spawner.new) }
    ensures hub_fault { IsHubsFault result.end → Rose (M.faults many.old) (M.faults many.new) }
    ensures start_fault { (result.end ≡ ManyEnd.NotOpened NotOpened.Start) ⊎ (result.stopped ≡ false) → Rose (P.faults spawner.old) (P.faults spawner.new) }
{
    let mut kids = Kids::none();
    let end = run_kept(alloc, socket, devices, settings, many, spawner, &mut kids);
    let stopped = kids.stop_all(spawner, many.made()).is_ok();
    ManyRun { end, stopped }
}

// The same, but that the children are kept.
fn run_kept<M: ManyHub, P: Spawner>(
    alloc: Global,
    socket: &str,
    devices: &Devices,
    settings: &ManySettings<'_>,
    many: &mut M,
    spawner: &mut P,
    kids: &mut Kids,
) -> ManyEnd
    requires none { kids.old ≡ [] }
    requires some { 0 < length settings.now.devices.now }
    requires room { length devices.now.targets.items ≤ M.devices many.old }
    requires few { length devices.now.pumps.items ≤ 8 }
    requires hub { M.devices many.old ≡ length settings.now.devices.now }
    ensures serves { StartsBy (Serves socket.now (addresses_in devices.now) (pumps_among devices.now) (asked_by settings.now) (M.calls many.old) (M.calls many.new) result) (P.calls spawner.old) kids.new (P.calls spawner.new) }
    ensures hub_fault { IsHubsFault result → Rose (M.faults many.old) (M.faults many.new) }
    ensures start_fault { result ≡ ManyEnd.NotOpened NotOpened.Start → Rose (P.faults spawner.old) (P.faults spawner.new) }
    ensures later_starts { P.faults spawner.old ≤ P.faults spawner.new }
{
    match open_devices(socket, devices, many, spawner, kids) {
        Ok(()) => ManyEnd::Served(serve_many(alloc, many, settings)),
        Err(why) => ManyEnd::NotOpened(why),
    }
}
