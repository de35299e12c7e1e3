//! The opening of a hub for a device, wherever the device is.
ghost use Rattle.std.specs.Prelude.{◌≡◌, ◌≤◌, [], is_ok, Some, Err, OnErr};
ghost use Rattle.kit_io.specs.Causes.{Rose, HasCause};
ghost use Rattle.link_io.specs.Target.{address_of};
ghost use Rattle.hub_io.specs.Record.{Records, Opened};
ghost use Rattle.modem_routes.specs.Reaching.{StartsBy};
ghost use Rattle.modem_routes.specs.Routes.{BehindPumps, place_in, words_in};
ghost use Rattle.program.specs.Serving.{OpensHub};

use child_io::{Kids, Spawner};
use hub_io::Hub;
use kit_io::Failed;
use link_io::Target;
use modem_routes::{Device, Pumps, start_pumps};

// Why a device wasn't opened.
#[derive(Clone, Copy, PartialEq, Eq)]
pub enum OpenFault {
    // A call on the hub failed.
    Hub,
    // A pump wasn't started.
    Start,
}

// Opens a hub for a device, and starts the device's pumps, which are kept in any case.
#[tactic(auto, using(crate::proofs::Opened::opened_at_once))]
pub fn open_device<H: Hub, P: Spawner>(
    socket: &str,
    device: &Device,
    hub: &mut H,
    spawner: &mut P,
    kids: &mut Kids,
) -> Result<(), OpenFault>
    requires { kids.old ≡ [] }
    ensures opens { StartsBy (OpensHub socket.now (place_in device.now) (H.calls hub.old) (H.calls hub.new) result) (P.calls spawner.old) kids.new (P.calls spawner.new) }
    ensures hub_fault { result ≡ Err OpenFault.Hub → Rose (H.faults hub.old) (H.faults hub.new) }
    ensures start_fault { result ≡ Err OpenFault.Start → Rose (P.faults spawner.old) (P.faults spawner.new) }

    ensures later { H.faults hub.old ≤ H.faults hub.new }
    ensures later_starts { P.faults spawner.old ≤ P.faults spawner.new }
{
    match device {
        Device::AtOnce(target) => open_at_once(socket, target, hub),
        Device::BehindPumps(target, pumps) => {
            open_behind_pumps(socket, target, pumps, hub, spawner, kids)
        }
    }
}

fn open_at_once<H: Hub>(socket: &str, target: &Target, hub: &mut H) -> Result<(), OpenFault>
    ensures opens { Records (H.calls hub.old) (Opened socket.now (Some (address_of target.now)) (is_ok result)) (H.calls hub.new) }
    ensures error { OnErr result (result ≡ Err OpenFault.Hub) }
    ensures cause { HasCause (H.faults hub.old) (H.faults hub.new) result }
{
    match hub.open(socket, Some(target)) {
        Ok(()) => Ok(()),
        Err(Failed) => Err(OpenFault::Hub),
    }
}

fn open_behind_pumps<H: Hub, P: Spawner>(
    socket: &str,
    target: &Target,
    pumps: &Pumps,
    hub: &mut H,
    spawner: &mut P,
    kids: &mut Kids,
) -> Result<(), OpenFault>
    requires { kids.old ≡ [] }
    ensures opens { StartsBy (OpensHub socket.now (BehindPumps (address_of target.now) (words_in pumps.now)) (H.calls hub.old) (H.calls hub.new) result) (P.calls spawner.old) kids.new (P.calls spawner.new) }
    ensures hub_fault { result ≡ Err OpenFault.Hub → Rose (H.faults hub.old) (H.faults hub.new) }
    ensures start_fault { result ≡ Err OpenFault.Start → Rose (P.faults spawner.old) (P.faults spawner.new) }

    ensures later { H.faults hub.old ≤ H.faults hub.new }
    ensures later_starts { P.faults spawner.old ≤ P.faults spawner.new }
{
    if let Err(Failed) = hub.open(socket, Some(target)) {
        return Err(OpenFault::Hub);
    }
    if let Err(Failed) = start_pumps(pumps, spawner, kids) {
        return Err(OpenFault::Start);
    }
    match hub.pair() {
        Ok(()) => Ok(()),
        Err(Failed) => Err(OpenFault::Hub),
    }
}
