ghost use Rattle.std.specs.Prelude.{◌≡◌, ◌<◌, ◌≤◌, [], true, length, map, IfOk};
ghost use Rattle.std.specs.Str.{encode_utf8_all};
ghost use Rattle.kit_io.specs.Causes.{Rose};
ghost use Rattle.hub_io.specs.Record.{Since};
ghost use Rattle.many_served.specs.Ends.{EndsSo};
ghost use Rattle.many_served.specs.Face.{Keeps, many_proxy};

use crate::served::ServedCore;
use hub_io::{Limits, ServeEnd, Until};
use kit_bytes::PathText;
use many_io::ManyHub;
use serving_loop::serve_devices;
use std::alloc::{AllocError, Global};

/// How a proxy of several devices is served.
#[derive(Clone, Copy)]
pub struct ManySettings<'a> {
    /// The paths of the devices, by which clients open them.
    pub devices: &'a [PathText],
    /// How long a request waits for its answer, in milliseconds.
    pub time: u64,
    /// For how long a client id is kept whose holder went, in milliseconds, before the proxy releases
    /// it; it never does where there is none.
    pub release: Option<u64>,
    /// When the serving ends by itself; a loss is that of all devices.
    pub until: Until,
    /// The serving ends after so many events.
    pub turns: u64,
}

// The paths, lent.
fn lend_all(alloc: Global, paths: &[PathText]) -> Result<Vec<&str>, AllocError>
    ensures { IfOk result (λ lent. map (λ text. text.now) lent.items ≡ map encode_utf8_all paths.now) }
{
    let mut lent = Vec::with_capacity(alloc, paths.len())?;
    for path in paths {
        lent.push_reserved(path.value().as_str());
    }
    Ok(lent)
}

// A proxy as the settings want it.
fn open_core(alloc: Global, settings: &ManySettings<'_>) -> Result<ServedCore, AllocError>
    requires { 0 < length settings.now.devices.now }
    ensures { IfOk result (λ served. Keeps (many_proxy (map encode_utf8_all settings.now.devices.now) settings.now.time settings.now.release) [] served.core) }
{
    let limits = Limits {
        time: settings.time,
        release: settings.release,
    };
    let paths = lend_all(alloc, settings.devices)?;
    ServedCore::open(alloc, &limits, &paths)
}

/// Serves the clients of a QMI proxy of several devices over a hub that is open for as many, and says
/// why it ended. The devices have different paths, and there is one at least.
///
/// Where the hub tells what was done to it: each sending was handed a front of what the proxy's
/// definitions have waiting for that client, which are those that a proxy of its own device has waiting
/// for it, or for the modem of that device. Each time before the hub was asked for more, all that
/// waited was offered, just those connections were hung up that the proxy ended or whose sending
/// failed, and each modem was opened again that is due. The serving ended at once where the hub said so
/// or failed, and never opened it.
pub fn serve_many<H: ManyHub>(alloc: Global, hub: &mut H, settings: &ManySettings<'_>) -> ServeEnd
    requires some { 0 < length settings.now.devices.now }
    requires hub { H.devices hub.old ≡ length settings.now.devices.now }
    ensures served { Since (H.calls hub.old) (H.calls hub.new) (EndsSo (many_proxy (map encode_utf8_all settings.now.devices.now) settings.now.time settings.now.release) settings.now.until settings.now.turns result) }
    ensures later { H.faults hub.old ≤ H.faults hub.new }
    ensures fault { result ≡ ServeEnd.HubFault → Rose (H.faults hub.old) (H.faults hub.new) }
    ensures lost { result ≡ ServeEnd.Lost → settings.now.until.lost ≡ true }
{
    match open_core(alloc, settings) {
        Ok(core) => serve_devices(hub, core, settings.until, settings.turns),
        Err(AllocError) => ServeEnd::OutOfMemory,
    }
}
