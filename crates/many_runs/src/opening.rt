//! The opening of a hub for several devices, wherever they are.
ghost use Rattle.std.specs.Prelude.{◌≡◌, ◌≤◌, [], length, map, is_ok, Err};
ghost use Rattle.kit_io.specs.Causes.{Rose, HasCause};
ghost use Rattle.modem_routes.specs.Reaching.{StartsBy};
ghost use Rattle.modem_routes.specs.Routes.{words_in};
ghost use Rattle.many_runs.specs.Places.{addresses_in, pumps_among};
ghost use Rattle.many_runs.specs.Running.{OpensHub, StartsEach};

use crate::devices::Devices;
use child_io::{Kids, Spawner};
use kit_io::Failed;
use many_io::ManyHub;
use modem_routes::{Pumps, start_more_pumps};

/// Why the devices weren't opened.
#[derive(Clone, Copy, PartialEq, Eq)]
pub enum NotOpened {
    /// A call on the hub failed.
    Hub,
    /// A pump wasn't started.
    Start,
}

// Starts the pumps of the nodes, in the order of the devices, and keeps them.
fn start_all<P: Spawner>(pumps: &[Pumps], spawner: &mut P, kids: &mut Kids) -> Result<(), Failed>
    requires none { kids.old ≡ [] }
    requires few { length pumps.now ≤ 8 }
    ensures starts { StartsBy (StartsEach (map words_in pumps.now) (is_ok result)) (P.calls spawner.old) kids.new (P.calls spawner.new) }
    ensures cause { HasCause (P.faults spawner.old) (P.faults spawner.new) result }
{
    for node in pumps {
        start_more_pumps(node, spawner, kids)?;
    }
    Ok(())
}

/// Opens a hub for the devices, and starts the pumps of those that are nodes, which are kept in any
/// case.
pub fn open_devices<M: ManyHub, P: Spawner>(
    socket: &str,
    devices: &Devices,
    many: &mut M,
    spawner: &mut P,
    kids: &mut Kids,
) -> Result<(), NotOpened>
    requires none { kids.old ≡ [] }
    requires room { length devices.now.targets.items ≤ M.devices many.old }
    requires few { length devices.now.pumps.items ≤ 8 }
    ensures opens { StartsBy (OpensHub socket.now (addresses_in devices.now) (pumps_among devices.now) (M.calls many.old) (M.calls many.new) result) (P.calls spawner.old) kids.new (P.calls spawner.new) }
    ensures hub_fault { result ≡ Err NotOpened.Hub → Rose (M.faults many.old) (M.faults many.new) }
    ensures start_fault { result ≡ Err NotOpened.Start → Rose (P.faults spawner.old) (P.faults spawner.new) }

    ensures later { M.faults many.old ≤ M.faults many.new }
    ensures later_starts { P.faults spawner.old ≤ P.faults spawner.new }
    ensures devices { M.devices many.new ≡ M.devices many.old }
{
    if let Err(Failed) = many.open(socket, &devices.targets) {
        return Err(NotOpened::Hub);
    }
    if let Err(Failed) = start_all(&devices.pumps, spawner, kids) {
        return Err(NotOpened::Start);
    }
    if devices.pumps.is_empty() {
        return Ok(());
    }
    match many.pair() {
        Ok(()) => Ok(()),
        Err(Failed) => Err(NotOpened::Hub),
    }
}
