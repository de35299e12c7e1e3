ghost use Rattle.std.specs.Prelude.{◌≡◌, ◌<◌, ◌≤◌, ◌++◌, ◌∷◌, [], length, map, string_bytes, IfOk};
ghost use Rattle.std.specs.Str.{encode_utf8_all};
ghost use Rattle.modem_routes.specs.Routes.{place_in};
ghost use Rattle.many_runs.specs.Places.{bridge_at, bridge_end, places_of, StandFor, HaveAlso};

use kit_bytes::PathText;
use link_io::Target;
use modem_routes::{Device, Pumps};
use std::alloc::{AllocError, Global};

/// Where several devices are, and what starts the pumps of those that are nodes.
#[derive(Drop)]
pub struct Devices {
    pub targets: Vec<Target>,
    pub pumps: Vec<Pumps>,
}

// What is behind a bridge's path for the device of this number, of which there are at most eight.
#[tactic(auto, unfolding(crate::specs::Places::bridge_end))]
fn bridge_end(device: usize) -> &'static str
    requires { device < 8 }
    ensures { result.now ≡ bridge_end device }
{
    match device {
        0 => ".0",
        1 => ".1",
        2 => ".2",
        3 => ".3",
        4 => ".4",
        5 => ".5",
        6 => ".6",
        _ => ".7",
    }
}

// The bridge of a device.
fn bridge_at(alloc: Global, bridge: &str, device: usize) -> Result<String, AllocError>
    requires { device < 8 }
    ensures { IfOk result (λ path. string_bytes path ≡ bridge_at bridge.now device) }
{
    let mut path = String::from_str(alloc, bridge)?;
    path.push_str(bridge_end(device))?;
    Ok(path)
}

impl Devices {
    /// The devices of these paths. The bridge of a node is the path of the bridge with the device's
    /// number behind it.
    pub fn at(alloc: Global, paths: &[PathText], bridge: &str) -> Result<Self, AllocError>
        requires { length paths.now ≤ 8 }
        ensures { IfOk result (λ devices. StandFor (places_of (map encode_utf8_all paths.now) bridge.now) devices) }
    {
        let mut devices = Devices {
            targets: Vec::new(alloc),
            pumps: Vec::new(alloc),
        };
        for device in 0..paths.len() {
            let bridge = bridge_at(alloc, bridge, device)?;
            let path = paths[device].value();
            devices.add(Device::at(alloc, path.as_str(), &bridge)?)?;
        }
        Ok(devices)
    }

    // One more.
    fn add(&mut self, device: Device) -> Result<(), AllocError>
        ensures { IfOk result (λ _. HaveAlso (place_in device) self.old self.new) }
    {
        match device {
            Device::AtOnce(target) => {
                self.targets.push(target)?;
            }
            Device::BehindPumps(target, pumps) => {
                self.targets.push(target)?;
                self.pumps.push(pumps)?;
            }
        }
        Ok(())
    }
}
