ghost use Rattle.std.specs.Prelude.{◌≡◌, true, codes, IfOk, OnOk};
ghost use Rattle.modem_routes.specs.Routes.{Direct, ByProxy, is_node, path_in, place_in, place_of, place_telling, proxy_words, pumps_of, telling, words_in};
ghost use Rattle.link_io.specs.Target.{AtSocket};

use crate::words::{proxy_words, pump_words};
use kit_bytes::{Kind, Text};
use link_io::Target;
use std::alloc::{AllocError, Global};

/// The words with which the pumps of a node are started.
#[derive(Drop)]
pub struct Pumps {
    pub(crate) reads: Vec<String>,
    pub(crate) writes: Vec<String>,
}

/// Where a device is.
#[derive(Drop)]
pub enum Device {
    /// At a socket.
    AtOnce(Target),
    /// Behind pumps that meet at a bridge.
    BehindPumps(Target, Pumps),
}

/// How a modem is reached.
#[derive(Drop)]
pub enum Route {
    Direct(Device),
    /// At the socket of a proxy, which is started with these words where none is there.
    ByProxy(Target, Vec<String>),
}

// Whether the path is that of a device node.
#[tactic(auto, unfolding(crate::specs::Routes::is_node))]
fn is_node(path: &str) -> bool
    ensures { result ≡ is_node path.now }
{
    path.starts_with("/dev/")
}

fn pumps_of(alloc: Global, node: &str, bridge: &str) -> Result<Pumps, AllocError>
    ensures { IfOk result (λ pumps. words_in pumps ≡ pumps_of node.now bridge.now) }
{
    let reads = pump_words(alloc, "read", node, bridge)?;
    let writes = pump_words(alloc, "write", node, bridge)?;
    Ok(Pumps { reads, writes })
}

impl Pumps {
    // Has them tell why their node failed.
    fn tell(&mut self, alloc: Global) -> Result<(), AllocError>
        ensures { OnOk result (words_in self.new ≡ telling (words_in self.old)) }
    {
        self.reads.push(String::from_str(alloc, "-v")?)?;
        self.writes.push(String::from_str(alloc, "-v")?)?;
        Ok(())
    }
}

impl Device {
    /// The device of this path: a node is behind pumps that meet at the path of the bridge.
    #[tactic(auto, unfolding(crate::specs::Routes::place_of))]
    pub fn at(alloc: Global, path: &str, bridge: &str) -> Result<Self, AllocError>
        ensures { IfOk result (λ device. place_in device ≡ place_of path.now bridge.now) }
    {
        if is_node(path) {
            let target = Target::Bridge(Text::from_str(alloc, bridge)?);
            return Ok(Device::BehindPumps(target, pumps_of(alloc, path, bridge)?));
        }
        Ok(Device::AtOnce(Target::Socket(Text::from_str(alloc, path)?)))
    }

    // Has the pumps of a node tell why it failed.
    fn tell(&mut self, alloc: Global) -> Result<(), AllocError>
        ensures { OnOk result (place_in self.new ≡ place_telling true (place_in self.old)) }
    {
        match self {
            Device::AtOnce(_) => Ok(()),
            Device::BehindPumps(_, pumps) => pumps.tell(alloc),
        }
    }
}

impl Route {
    /// To the device itself. The pumps of a node tell why it failed where that is wanted.
    pub fn direct(
        alloc: Global,
        device: &str,
        bridge: &str,
        verbose: bool,
    ) -> Result<Self, AllocError>
        ensures { IfOk result (λ route. path_in route ≡ Direct (place_telling verbose (place_of device.now bridge.now))) }
    {
        let mut device = Device::at(alloc, device, bridge)?;
        if verbose {
            device.tell(alloc)?;
        }
        Ok(Route::Direct(device))
    }

    /// To the proxy at a socket, which is there for a device, or is to be.
    pub fn by_proxy(
        alloc: Global,
        kind: Kind,
        device: &str,
        socket: &str,
        bridge: &str,
    ) -> Result<Self, AllocError>
        ensures { IfOk result (λ route. path_in route ≡ ByProxy (AtSocket socket.now) (proxy_words kind device.now socket.now bridge.now)) }
    {
        let words = proxy_words(alloc, kind, device, socket, bridge)?;
        Ok(Route::ByProxy(Target::Socket(Text::from_str(alloc, socket)?), words))
    }
}
