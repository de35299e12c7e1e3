ghost use Rattle.std.specs.Prelude.{◌≡◌, ◌≤◌, [], true};
ghost use Rattle.kit_io.specs.Causes.{Rose};
ghost use Rattle.proxy_history.specs.Proxy.{Proxy};
ghost use Rattle.hub_io.specs.Events.{event_of as one_event_of};
ghost use Rattle.hub_io.specs.Record.{Since};
ghost use Rattle.proxy_serving.specs.Ends.{EndsFor};
ghost use Rattle.many_io.specs.Events.{event_of};
ghost use Rattle.many_io.specs.Record.{without_device};
ghost use Rattle.serving_loop.specs.One.{only_face, KeepsAsOne};
ghost use Rattle.serving_loop.specs.Shows.{shows_as_one};

use crate::many_core::ManyProxyCore;
use crate::serving::serve_devices;
use hub_io::{Event, Hub, ServeEnd, Until};
use kit_bytes::ConnId;
use many_io::ManyEvent;
use proxy_serving::ProxyCore;
use std::alloc::AllocError;

// An event of a proxy of one device.
fn of_the_only(event: ManyEvent<'_>) -> Event<'_>
    ensures { one_event_of result ≡ without_device (event_of event.entry) }
{
    match event {
        ManyEvent::Joined(conn) => Event::Joined(conn),
        ManyEvent::Piece(conn, bytes) => Event::Piece(conn, bytes),
        ManyEvent::Left(conn) => Event::Left(conn),
        ManyEvent::Took(conn, count) => Event::Took(conn, count),
        ManyEvent::ModemPiece(_, bytes) => Event::ModemPiece(bytes),
        ManyEvent::ModemGone(_) => Event::ModemGone,
        ManyEvent::ModemBack(_) => Event::ModemBack,
        ManyEvent::ModemTook(_, count) => Event::ModemTook(count),
        ManyEvent::Now(time) => Event::Now(time),
    }
}

// A core of a proxy of one device is that of one of several: its modem is that of device 0.
impl<C: ProxyCore> ManyProxyCore for C {
    ghost face = { λ core. only_face (C.ProxyCore.face core) };

    ghost keeps = { λ p past core. KeepsAsOne C.ProxyCore.keeps C.ProxyCore.face p past core };

    ghost lacks_memory = { λ event. C.ProxyCore.lacks_memory (without_device event) };

    fn step(&mut self, event: ManyEvent<'_>) -> Result<(), AllocError> {
        match ProxyCore::step(self, of_the_only(event)) {
            Ok(()) => Ok(()),
            Err(AllocError) => Err(AllocError),
        }
    }

    fn devices(&self) -> usize {
        1
    }

    fn queued(&self, conn: ConnId) -> &[u8] {
        ProxyCore::queued(self, conn)
    }

    fn queued_modem(&self, _device: usize) -> &[u8] {
        ProxyCore::queued_modem(self)
    }

    fn next_dropped(&mut self) -> Option<ConnId> {
        ProxyCore::next_dropped(self)
    }

    fn waiting_from(&self, from: usize) -> Option<usize> {
        ProxyCore::waiting_from(self, from)
    }

    fn conn_at(&self, index: usize) -> ConnId {
        ProxyCore::conn_at(self, index)
    }

    fn present(&self) -> usize {
        ProxyCore::present(self)
    }

    fn away(&self, _device: usize) -> bool {
        ProxyCore::away(self)
    }

    fn time(&self) -> u64 {
        ProxyCore::time(self)
    }

    ghost shows = { λ p past core. shows_as_one C.ProxyCore.keeps C.ProxyCore.face C.ProxyCore.shows p past core };
}

/// Serves the clients of a proxy over a hub that is open, and says why it ended: it ended by itself,
/// all turns were taken, the hub said so or failed, or memory ran out.
///
/// Where the hub tells what was done to it: each sending was handed a front of what the proxy's
/// definitions have waiting for that client. Each time before the hub was asked for more, all that
/// waited was offered, and just those connections were hung up that the proxy ended or whose sending
/// failed. The serving ended at once where the hub said so or failed, and never opened it.
pub fn serve<C: ProxyCore, H: Hub>(hub: &mut H, core: C, until: Until, turns: u64) -> ServeEnd
    requires opened { (p : Proxy) × C.keeps p [] core }
    requires greatest { (C.face core).greatest ≤ H.greatest hub.old }
    ensures served { (p : Proxy) → C.keeps p [] core → Since (H.calls hub.old) (H.calls hub.new) (EndsFor C.lacks_memory p until turns result) }
    ensures later { H.faults hub.old ≤ H.faults hub.new }
    ensures fault { result ≡ ServeEnd.HubFault → Rose (H.faults hub.old) (H.faults hub.new) }
    ensures lost { result ≡ ServeEnd.Lost → until.lost ≡ true }
{
    serve_devices(hub, core, until, turns)
}
