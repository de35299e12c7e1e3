ghost use Rattle.std.specs.Prelude.{◌≡◌, ◌<◌, [], length, map, IfOk};
ghost use Rattle.many_served.specs.Face.{face_of, many_proxy, Keeps};
ghost use Rattle.many_served.specs.Shows.{shows_of};

use hub_io::Limits;
use kit_bytes::ConnId;
use many_core::ManyCore;
use many_io::ManyEvent;
use serving_loop::ManyProxyCore;
use std::alloc::{AllocError, Global};

/// The core of a QMI proxy of several devices, as one that can be served over a hub.
#[derive(Drop)]
pub struct ServedCore {
    core: ManyCore,
}

impl ServedCore {
    /// A proxy that nothing has happened to yet, for the devices of these paths, of which there is one
    /// at least. The modems are there. This takes all the memory that it will ever need.
    pub fn open(alloc: Global, limits: &Limits, paths: &[&str]) -> Result<Self, AllocError>
        requires { 0 < length paths.now }
        ensures { IfOk result (λ served. Keeps (many_proxy (map (λ path. path.now) paths.now) limits.now.time limits.now.release) [] served.core) }
    {
        let core = ManyCore::open(alloc, limits, paths)?;
        Ok(ServedCore { core })
    }
}

impl ManyProxyCore for ServedCore {
    ghost face = { λ served. face_of served.core };

    ghost keeps = { λ p past served. Keeps p past served.core };

    ghost lacks_memory = { λ event. ⊥ };

    fn step(&mut self, event: ManyEvent<'_>) -> Result<(), AllocError> {
        self.core.step(event);
        Ok(())
    }

    fn devices(&self) -> usize {
        self.core.devices()
    }

    fn queued(&self, conn: ConnId) -> &[u8] {
        self.core.queued_there(conn)
    }

    fn queued_modem(&self, device: usize) -> &[u8] {
        self.core.queued_modem(device)
    }

    fn next_dropped(&mut self) -> Option<ConnId> {
        self.core.next_dropped()
    }

    fn waiting_from(&self, from: usize) -> Option<usize> {
        self.core.waiting_from(from)
    }

    fn conn_at(&self, index: usize) -> ConnId {
        self.core.conn_at(index)
    }

    fn present(&self) -> usize {
        self.core.present()
    }

    fn away(&self, device: usize) -> bool {
        self.core.away(device)
    }

    fn time(&self) -> u64 {
        self.core.time()
    }

    ghost shows = { λ p past served. shows_of p past served.core };
}
