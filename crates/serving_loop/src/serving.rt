ghost use Rattle.std.specs.Prelude.{◌≡◌, ◌≤◌, ◌<◌, ◌+◌, ℕ, [], length, true, Some, OnOk, Ok};
ghost use Rattle.kit_io.specs.Causes.{Rose};
ghost use Rattle.hub_io.specs.Record.{Since};
ghost use Rattle.many_io.specs.Events.{event_of};
ghost use Rattle.many_io.specs.Record.{Told};
ghost use Rattle.many_serving.specs.Proxy.{ManyProxy};
ghost use Rattle.many_serving.specs.Ends.{EndsFor};
ghost use Rattle.serving_loop.specs.Carrying.{Carries};
ghost use Rattle.serving_loop.specs.Cores.{IsKnown};
ghost use Rattle.serving_loop.specs.Same.{IsAsBefore};
ghost use Rattle.serving_loop.specs.Face.{greatest_after};
ghost use Rattle.serving_loop.specs.Server.{is_clock, misses_modem};
ghost use Rattle.serving_loop.specs.Progress.{IsReady, HasTold, MayReopen, HasOffered, MayBeTold, TellsEvent, call_of, AfterMeeting, AfterTurn, IsHubFault, EndsServing};

use crate::many_core::ManyProxyCore;
use crate::offer::{hang_up_dropped, offer_all};
use crate::server::Server;
use crate::told_event::ToldEvent;
use hub_io::{NEXT_ROOM, ServeEnd, Until};
use kit_io::Failed;
use many_io::{ManyEvent, ManyHub};
use std::alloc::AllocError;

// Opens the modem of a device again, where it is away.
fn reopen<C: ManyProxyCore, H: ManyHub>(hub: &mut H, server: &mut Server<C>, device: usize)
    requires known { IsKnown C.keeps server.old.core }
    requires asked { (C.face server.old.core).dropped ≡ [] }
    requires device { device < (C.face server.old.core).devices }
    requires hub { H.devices hub.old ≡ (C.face server.old.core).devices }
    ensures carries { (p : ManyProxy) (until : Until) (turns : ℕ) →
        Carries (H.calls hub.old) (MayReopen C.keeps C.face p until turns (C.face server.old.core).away device server.old) (H.calls hub.new) (MayReopen C.keeps C.face p until turns (C.face server.new.core).away (device + 1) server.new) }
    ensures asked { (C.face server.new.core).dropped ≡ [] }
    ensures same { IsAsBefore C.keeps C.face H.faults H.greatest H.devices server.old.core server.new.core hub.old hub.new }
{
    if !server.core.away(device) {
        return;
    }
    match hub.reopen_modem(device) {
        Ok(()) => {
            server.modems.remove(device as u64);
            server.note(ManyEvent::ModemBack(device));
        }
        Err(Failed) => {}
    }
}

// Opens each modem again that is away.
fn reopen_all<C: ManyProxyCore, H: ManyHub>(hub: &mut H, server: &mut Server<C>)
    requires known { IsKnown C.keeps server.old.core }
    requires asked { (C.face server.old.core).dropped ≡ [] }
    requires hub { H.devices hub.old ≡ (C.face server.old.core).devices }
    ensures carries { (p : ManyProxy) (until : Until) (turns : ℕ) →
        Carries (H.calls hub.old) (MayReopen C.keeps C.face p until turns (C.face server.old.core).away 0 server.old) (H.calls hub.new) (HasOffered C.keeps C.face p until turns 0 server.new) }
    ensures asked { (C.face server.new.core).dropped ≡ [] }
    ensures same { IsAsBefore C.keeps C.face H.faults H.greatest H.devices server.old.core server.new.core hub.old hub.new }
{
    for device in 0..server.core.devices() {
        reopen(hub, server, device);
    }
}

// Whether an event is the clock.
fn is_clock(event: ManyEvent<'_>) -> bool
    ensures { result ≡ is_clock (event_of event.entry) }
{
    match event {
        ManyEvent::Now(_) => true,
        _ => false,
    }
}

// Opens each modem again that is away, where an event is the clock.
fn reopen_at<C: ManyProxyCore, H: ManyHub>(
    hub: &mut H,
    server: &mut Server<C>,
    event: ManyEvent<'_>,
)
    requires known { IsKnown C.keeps server.old.core }
    requires asked { (C.face server.old.core).dropped ≡ [] }
    requires hub { H.devices hub.old ≡ (C.face server.old.core).devices }
    ensures carries { (p : ManyProxy) (until : Until) (turns : ℕ) →
        Carries (H.calls hub.old) (MayReopen C.keeps C.face p until turns (misses_modem (event_of event.entry) (C.face server.old.core)) 0 server.old) (H.calls hub.new) (HasOffered C.keeps C.face p until turns 0 server.new) }
    ensures asked { (C.face server.new.core).dropped ≡ [] }
    ensures same { IsAsBefore C.keeps C.face H.faults H.greatest H.devices server.old.core server.new.core hub.old hub.new }
{
    if !is_clock(event) {
        return;
    }
    reopen_all(hub, server);
}

// Has the proxy meet an event, and hangs up whom it drops. It tells why the serving ends, where it
// does, and else each modem is opened again for which that is due.
fn meet_event<C: ManyProxyCore, H: ManyHub>(
    hub: &mut H,
    server: &mut Server<C>,
    until: Until,
    event: ManyEvent<'_>,
) -> Result<Option<ServeEnd>, AllocError>
    requires known { IsKnown C.keeps server.old.core }
    requires asked { (C.face server.old.core).dropped ≡ [] }
    requires hub { H.devices hub.old ≡ (C.face server.old.core).devices }
    requires told { (before : ℕ) × ((C.face server.old.core).greatest ≤ before) × MayBeTold (H.devices hub.old) before (event_of event) × (H.greatest hub.old ≡ greatest_after (event_of event) before) }
    ensures carries { (p : ManyProxy) (turns : ℕ) →
        Carries (H.calls hub.old) (HasTold C.keeps C.face p until turns server.old (Told (event_of event.entry))) (H.calls hub.new) (AfterMeeting C.keeps C.face C.lacks_memory result p until turns server.new) }
    ensures known { OnOk result (IsKnown C.keeps server.new.core) }
    ensures asked { OnOk result ((C.face server.new.core).dropped ≡ []) }
    ensures devices { OnOk result ((C.face server.new.core).devices ≡ (C.face server.old.core).devices) }
    ensures greatest { OnOk result ((C.face server.new.core).greatest ≤ H.greatest hub.new) }
    ensures later { H.faults hub.old ≤ H.faults hub.new }
    ensures hub { H.devices hub.new ≡ H.devices hub.old }
    ensures sound { IsHubFault result → ⊥ }
    ensures lost { result ≡ Ok (Some ServeEnd.Lost) → until.lost ≡ true }
{
    server.meet(event)?;
    hang_up_dropped(hub, server);
    if let Some(end) = server.end_at(event, until) {
        return Ok(Some(end));
    }
    reopen_at(hub, server, event);
    Ok(None)
}

// Has the proxy meet what the hub told. It tells why the serving ends, where it does.
fn meet_next<C: ManyProxyCore, H: ManyHub>(
    hub: &mut H,
    server: &mut Server<C>,
    until: Until,
    next: ToldEvent<'_>,
) -> Result<Option<ServeEnd>, AllocError>
    requires known { IsKnown C.keeps server.old.core }
    requires asked { (C.face server.old.core).dropped ≡ [] }
    requires hub { H.devices hub.old ≡ (C.face server.old.core).devices }
    requires told { (before : ℕ) × ((C.face server.old.core).greatest ≤ before) × TellsEvent (H.devices hub.old) before next (H.greatest hub.old) }
    ensures carries { (p : ManyProxy) (turns : ℕ) →
        Carries (H.calls hub.old) (HasTold C.keeps C.face p until turns server.old (call_of next.entry)) (H.calls hub.new) (AfterMeeting C.keeps C.face C.lacks_memory result p until turns server.new) }
    ensures known { OnOk result (IsKnown C.keeps server.new.core) }
    ensures asked { OnOk result ((C.face server.new.core).dropped ≡ []) }
    ensures devices { OnOk result ((C.face server.new.core).devices ≡ (C.face server.old.core).devices) }
    ensures greatest { OnOk result ((C.face server.new.core).greatest ≤ H.greatest hub.new) }
    ensures later { H.faults hub.old ≤ H.faults hub.new }
    ensures hub { H.devices hub.new ≡ H.devices hub.old }
    ensures sound { IsHubFault result → ⊥ }
    ensures lost { result ≡ Ok (Some ServeEnd.Lost) → until.lost ≡ true }
{
    match next {
        ToldEvent::Event(event) => meet_event(hub, server, until, event),
        ToldEvent::Room(conn) => {
            server.blocked.remove(conn);
            Ok(None)
        }
        ToldEvent::ModemRoom(device) => {
            server.modems.remove(device as u64);
            Ok(None)
        }
        ToldEvent::Stop => Ok(Some(ServeEnd::Stopped)),
    }
}

// Takes a turn: what the hub tells next is met, and then all that waits is offered. It tells why the
// serving ends, where it does.
fn turn<C: ManyProxyCore, H: ManyHub>(
    hub: &mut H,
    server: &mut Server<C>,
    until: Until,
    buffer: &mut [u8],
) -> Result<Option<ServeEnd>, AllocError>
    requires known { IsKnown C.keeps server.old.core }
    requires asked { (C.face server.old.core).dropped ≡ [] }
    requires hub { H.devices hub.old ≡ (C.face server.old.core).devices }
    requires greatest { (C.face server.old.core).greatest ≤ H.greatest hub.old }
    requires room { length buffer.old ≡ NEXT_ROOM }
    ensures carries { (p : ManyProxy) (turns : ℕ) →
        Carries (H.calls hub.old) (IsReady C.keeps C.face p until turns server.old) (H.calls hub.new) (AfterTurn C.keeps C.face C.lacks_memory result p until turns server.new) }
    ensures known { OnOk result (IsKnown C.keeps server.new.core) }
    ensures asked { OnOk result ((C.face server.new.core).dropped ≡ []) }
    ensures devices { OnOk result ((C.face server.new.core).devices ≡ (C.face server.old.core).devices) }
    ensures greatest { OnOk result ((C.face server.new.core).greatest ≤ H.greatest hub.new) }
    ensures later { H.faults hub.old ≤ H.faults hub.new }
    ensures hub { H.devices hub.new ≡ H.devices hub.old }
    ensures fault { IsHubFault result → Rose (H.faults hub.old) (H.faults hub.new) }
    ensures lost { result ≡ Ok (Some ServeEnd.Lost) → until.lost ≡ true }
{
    let told = match hub.next(buffer) {
        Ok(told) => told,
        Err(Failed) => return Ok(Some(ServeEnd::HubFault)),
    };
    let next = ToldEvent::read(told, buffer);
    if let Some(end) = meet_next(hub, server, until, next)? {
        return Ok(Some(end));
    }
    offer_all(hub, server);
    Ok(None)
}

// Takes turns until the serving ends.
fn take_turns<C: ManyProxyCore, H: ManyHub>(
    hub: &mut H,
    server: &mut Server<C>,
    until: Until,
    turns: u64,
) -> Result<ServeEnd, AllocError>
    requires known { IsKnown C.keeps server.old.core }
    requires asked { (C.face server.old.core).dropped ≡ [] }
    requires hub { H.devices hub.old ≡ (C.face server.old.core).devices }
    requires greatest { (C.face server.old.core).greatest ≤ H.greatest hub.old }
    ensures carries { (p : ManyProxy) →
        Carries (H.calls hub.old) (IsReady C.keeps C.face p until 0 server.old) (H.calls hub.new) (EndsServing C.lacks_memory result p until turns) }
    ensures later { H.faults hub.old ≤ H.faults hub.new }
    ensures fault { result ≡ Ok ServeEnd.HubFault → Rose (H.faults hub.old) (H.faults hub.new) }
    ensures lost { result ≡ Ok ServeEnd.Lost → until.lost ≡ true }
{
    let mut buffer = [0; NEXT_ROOM];
    for _ in 0..turns {
        if let Some(end) = turn(hub, server, until, &mut buffer)? {
            return Ok(end);
        }
    }
    Ok(ServeEnd::TurnsSpent)
}

/// Serves the clients of a proxy of several devices over a hub that is open, and says why it ended: it
/// ended by itself, all turns were taken, the hub said so or failed, or memory ran out.
///
/// Where the hub tells what was done to it: each sending was handed a front of what the proxy's
/// definitions have waiting for that client, or for the modem of that device. Each time before the
/// hub was asked for more, all that waited was offered, just those connections were hung up that the
/// proxy ended or whose sending failed, and each modem was opened again that is due. The serving ended
/// at once where the hub said so or failed, and never opened it.
pub fn serve_devices<C: ManyProxyCore, H: ManyHub>(
    hub: &mut H,
    core: C,
    until: Until,
    turns: u64,
) -> ServeEnd
    requires opened { (p : ManyProxy) × C.keeps p [] core }
    requires hub { H.devices hub.old ≡ (C.face core).devices }
    requires greatest { (C.face core).greatest ≤ H.greatest hub.old }
    ensures served { (p : ManyProxy) → C.keeps p [] core → Since (H.calls hub.old) (H.calls hub.new) (EndsFor C.lacks_memory p until turns result) }
    ensures later { H.faults hub.old ≤ H.faults hub.new }
    ensures fault { result ≡ ServeEnd.HubFault → Rose (H.faults hub.old) (H.faults hub.new) }
    ensures lost { result ≡ ServeEnd.Lost → until.lost ≡ true }
{
    let mut server = Server::open(core);
    match take_turns(hub, &mut server, until, turns) {
        Ok(end) => end,
        Err(_) => ServeEnd::OutOfMemory,
    }
}
