ghost use Rattle.std.specs.Prelude.{◌≡◌, ◌≤◌};
ghost use Rattle.kit_io.specs.Causes.{Rose};
ghost use Rattle.hub_io.specs.Record.{Since};
ghost use Rattle.proxy_serving.specs.Ends.{EndsSo};
ghost use Rattle.proxy_core.specs.Face.{face_of, Keeps};
ghost use Rattle.proxy_core.specs.Lawful.{proxy_by};
ghost use Rattle.proxy_core.specs.Shows.{shows_of};

use crate::protocol::Protocol;
use crate::proxy::Core;
use hub_io::{Event, Hub, Limits, ServeEnd, Settings};
use kit_bytes::ConnId;
use proxy_serving::ProxyCore;
use serving_loop::serve;
use std::alloc::{AllocError, Global};

impl<P: Protocol> ProxyCore for Core<P> {
    ghost face = { λ core. face_of P.meaning core };

    ghost keeps = { λ p past core. Keeps P.meaning p past core };

    ghost lacks_memory = { λ event. ⊥ };

    fn step(&mut self, event: Event<'_>) -> Result<(), AllocError> {
        Core::step(self, event);
        Ok(())
    }

    fn queued(&self, conn: ConnId) -> &[u8] {
        Core::queued(self, conn)
    }

    fn queued_modem(&self) -> &[u8] {
        Core::queued_modem(self)
    }

    fn parts(&self, conn: ConnId) -> (&[u8], &[u8]) {
        Core::parts(self, conn)
    }

    fn modem_parts(&self) -> (&[u8], &[u8]) {
        Core::modem_parts(self)
    }

    fn next_dropped(&mut self) -> Option<ConnId> {
        Core::next_dropped(self)
    }

    fn waiting_from(&self, from: usize) -> Option<usize> {
        Core::waiting_from(self, from)
    }

    fn conn_at(&self, index: usize) -> ConnId {
        Core::conn_at(self, index)
    }

    fn present(&self) -> usize {
        Core::present(self)
    }

    fn away(&self) -> bool {
        Core::away(self)
    }

    fn time(&self) -> u64 {
        Core::time(self)
    }

    ghost shows = { λ p past core. shows_of P.meaning P.Client.fresh P.Frame.size P.lawful p past core };
}

/// Serves the clients of a proxy over a hub that is open, and says why it ended.
///
/// Where the hub tells what was done to it: each sending was handed a front of what the proxy's
/// definitions have waiting for that client. Each time before the hub was asked for more, all that
/// waited was offered, and just those connections were hung up that the proxy ended or whose sending
/// failed. The serving ended at once where the hub said so or failed, and never opened it.
pub fn serve_proxy<P: Protocol, H: Hub>(alloc: Global, hub: &mut H, settings: &Settings) -> ServeEnd
    ensures served { Since (H.calls hub.old) (H.calls hub.new) (EndsSo (proxy_by P.meaning (P.meaning.opening (record { time = settings.now.time; release = settings.now.release }) settings.now.device)) settings.now.until settings.now.turns result) }
    ensures later { H.faults hub.old ≤ H.faults hub.new }
    ensures fault { result ≡ ServeEnd.HubFault → Rose (H.faults hub.old) (H.faults hub.new) }
{
    let limits = Limits {
        time: settings.time,
        release: settings.release,
    };
    let opened: Result<Core<P>, AllocError> = Core::open(alloc, &limits, settings.device.as_str());
    match opened {
        Ok(core) => serve(hub, core, settings.until, settings.turns),
        Err(AllocError) => ServeEnd::OutOfMemory,
    }
}
