ghost use Rattle.std.specs.Prelude.{◌≡◌, ◌≤◌, ◌<◌, ℕ, [], true, false, length};
ghost use Rattle.proxy_history.specs.Connections.{contains};
ghost use Rattle.hub_io.specs.Record.{Since};
ghost use Rattle.many_serving.specs.Proxy.{ManyProxy};
ghost use Rattle.serving_loop.specs.Carrying.{Carries};
ghost use Rattle.serving_loop.specs.Face.{SameAway};
ghost use Rattle.serving_loop.specs.Cores.{IsKnown};
ghost use Rattle.serving_loop.specs.Same.{IsAsBefore};
ghost use Rattle.serving_loop.specs.Server.{devices_there};
ghost use Rattle.serving_loop.specs.Progress.{IsServing, HasOffered, OffersModems, IsAt, IsReady, AfterModem, AfterModems, OneIsDone, AreHangUps, StayAway};

use crate::many_core::ManyProxyCore;
use crate::server::Server;
use hub_io::Until;
use kit_bytes::ConnId;
use kit_io::Failed;
use many_io::{ManyEvent, ManyHub};

/// Hangs up the connections that the proxy dropped.
pub fn hang_up_dropped<C: ManyProxyCore, H: ManyHub>(hub: &mut H, server: &mut Server<C>)
    requires { IsKnown C.keeps server.old.core }
    ensures carries { (p : ManyProxy) (turns : ℕ) →
        Carries (H.calls hub.old) (IsServing C.keeps C.face p turns server.old) (H.calls hub.new) (IsServing C.keeps C.face p turns server.new) }
    ensures only { Since (H.calls hub.old) (H.calls hub.new) AreHangUps }
    ensures asked { (C.face server.new.core).dropped ≡ [] }
    ensures away { SameAway (C.face server.old.core) (C.face server.new.core) }
    ensures same { IsAsBefore C.keeps C.face H.faults H.greatest H.devices server.old.core server.new.core hub.old hub.new }
{
    while let Some(dropped) = server.core.next_dropped() {
        server.blocked.remove(dropped);
        hub.hang_up(dropped);
    }
}

// Offers to the client at a place what waits for it, until nothing waits or its socket takes
// nothing. It gives the place to go on with: the one behind, or this one where the client is gone.
fn offer<C: ManyProxyCore, H: ManyHub>(
    hub: &mut H,
    server: &mut Server<C>,
    conn: ConnId,
    place: usize,
) -> usize
    requires known { IsKnown C.keeps server.old.core }
    requires asked { (C.face server.old.core).dropped ≡ [] }
    requires there { contains conn (C.face server.old.core).present ≡ true }
    requires place { place < length (C.face server.old.core).present }
    requires fits { place < usize.MAX }
    ensures carries { (p : ManyProxy) (until : Until) (turns : ℕ) →
        Carries (H.calls hub.old) (IsAt C.keeps C.face p until turns place conn server.old) (H.calls hub.new) (HasOffered C.keeps C.face p until turns result server.new) }
    ensures asked { (C.face server.new.core).dropped ≡ [] }
    ensures done { OneIsDone place result (C.face server.old.core) (C.face server.new.core) }
    ensures away { SameAway (C.face server.old.core) (C.face server.new.core) }
    ensures same { IsAsBefore C.keeps C.face H.faults H.greatest H.devices server.old.core server.new.core hub.old hub.new }
{
    loop {
        if server.blocked.contains(conn) {
            return place + 1;
        }
        let queue = server.core.queued(conn);
        if queue.is_empty() {
            return place + 1;
        }
        match hub.send(conn, queue) {
            Ok(0) => {
                server.blocked.add(conn);
                return place + 1;
            }
            Ok(count) => server.note(ManyEvent::Took(conn, count)),
            Err(Failed) => {
                server.note(ManyEvent::Left(conn));
                server.blocked.remove(conn);
                hub.hang_up(conn);
                return place;
            }
        }
    }
}

// Offers to each client what waits for it.
fn offer_clients<C: ManyProxyCore, H: ManyHub>(hub: &mut H, server: &mut Server<C>)
    requires known { IsKnown C.keeps server.old.core }
    requires asked { (C.face server.old.core).dropped ≡ [] }
    ensures carries { (p : ManyProxy) (until : Until) (turns : ℕ) →
        Carries (H.calls hub.old) (HasOffered C.keeps C.face p until turns 0 server.old) (H.calls hub.new) (OffersModems C.keeps C.face p until turns 0 server.new) }
    ensures asked { (C.face server.new.core).dropped ≡ [] }
    ensures away { SameAway (C.face server.old.core) (C.face server.new.core) }
    ensures same { IsAsBefore C.keeps C.face H.faults H.greatest H.devices server.old.core server.new.core hub.old hub.new }
{
    let mut from = 0;
    while let Some(place) = server.core.waiting_from(from) {
        let conn = server.core.conn_at(place);
        from = offer(hub, server, conn, place);
    }
}

// Offers to the modem of a device what waits for it, until nothing waits or it takes nothing. It
// tells whether the modem is there as before; one that fails is gone.
fn offer_modem<C: ManyProxyCore, H: ManyHub>(
    hub: &mut H,
    server: &mut Server<C>,
    device: usize,
) -> bool
    requires known { IsKnown C.keeps server.old.core }
    requires asked { (C.face server.old.core).dropped ≡ [] }
    requires device { device < (C.face server.old.core).devices }
    requires hub { H.devices hub.old ≡ (C.face server.old.core).devices }
    ensures carries { (p : ManyProxy) (until : Until) (turns : ℕ) →
        Carries (H.calls hub.old) (OffersModems C.keeps C.face p until turns device server.old) (H.calls hub.new) (AfterModem C.keeps C.face result p until turns device server.new) }
    ensures asked { result ≡ true → (C.face server.new.core).dropped ≡ [] }
    ensures away { StayAway (C.face server.old.core) (C.face server.new.core) }
    ensures gone { result ≡ false → ((C.face server.old.core).away device ≡ false) × ((C.face server.new.core).away device ≡ true) }
    ensures same { IsAsBefore C.keeps C.face H.faults H.greatest H.devices server.old.core server.new.core hub.old hub.new }
{
    loop {
        if server.modems.contains(device as u64) {
            return true;
        }
        if server.core.away(device) {
            return true;
        }
        let queue = server.core.queued_modem(device);
        if queue.is_empty() {
            return true;
        }
        match hub.send_modem(device, queue) {
            Ok(0) => {
                server.modems.add(device as u64);
                return true;
            }
            Ok(count) => server.note(ManyEvent::ModemTook(device, count)),
            Err(Failed) => {
                server.note(ManyEvent::ModemGone(device));
                return false;
            }
        }
    }
}

// Offers to each modem what waits for it. It tells whether they are all there as before.
fn offer_modems<C: ManyProxyCore, H: ManyHub>(hub: &mut H, server: &mut Server<C>) -> bool
    requires known { IsKnown C.keeps server.old.core }
    requires asked { (C.face server.old.core).dropped ≡ [] }
    requires hub { H.devices hub.old ≡ (C.face server.old.core).devices }
    ensures carries { (p : ManyProxy) (until : Until) (turns : ℕ) →
        Carries (H.calls hub.old) (OffersModems C.keeps C.face p until turns 0 server.old) (H.calls hub.new) (AfterModems C.keeps C.face result p until turns server.new) }
    ensures asked { result ≡ true → (C.face server.new.core).dropped ≡ [] }
    ensures fewer { result ≡ false → devices_there (C.face server.new.core).away (C.face server.new.core).devices < devices_there (C.face server.old.core).away (C.face server.old.core).devices }
    ensures same { IsAsBefore C.keeps C.face H.faults H.greatest H.devices server.old.core server.new.core hub.old hub.new }
{
    for device in 0..server.core.devices() {
        if !offer_modem(hub, server, device) {
            return false;
        }
    }
    true
}

/// Offers to each client, and then to each modem, what waits for it. Where a modem fails, all are
/// offered once more: each that waited for an answer is told.
pub fn offer_all<C: ManyProxyCore, H: ManyHub>(hub: &mut H, server: &mut Server<C>)
    requires known { IsKnown C.keeps server.old.core }
    requires asked { (C.face server.old.core).dropped ≡ [] }
    requires hub { H.devices hub.old ≡ (C.face server.old.core).devices }
    ensures carries { (p : ManyProxy) (until : Until) (turns : ℕ) →
        Carries (H.calls hub.old) (HasOffered C.keeps C.face p until turns 0 server.old) (H.calls hub.new) (IsReady C.keeps C.face p until turns server.new) }
    ensures asked { (C.face server.new.core).dropped ≡ [] }
    ensures same { IsAsBefore C.keeps C.face H.faults H.greatest H.devices server.old.core server.new.core hub.old hub.new }
{
    loop {
        offer_clients(hub, server);
        if offer_modems(hub, server) {
            return;
        }
        hang_up_dropped(hub, server);
    }
}
