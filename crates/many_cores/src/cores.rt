ghost use Rattle.std.specs.Prelude.{◌≡◌, ◌<◌, ◌≤◌, ℕ, [], Some, false, length, map, set, nat_lt, IfOk};
ghost use Rattle.hub_io.specs.Events.{event_of};
ghost use Rattle.proxy_history.specs.Events as history;
ghost use Rattle.proxy_solo.specs.Cores.{hung_up};
ghost use Rattle.proxy_state.specs.Stands.{MayMeet};
ghost use Rattle.qmi_state.specs.Core.{QmiCore as CoreValue};
ghost use Rattle.qmi_state.specs.Transitions.{qmi_handlers};
ghost use Rattle.many_history.specs.Many.{arrival, in_pieces};
ghost use Rattle.many_state.specs.Core.{has};
ghost use Rattle.qmi_many_state.specs.Core.{opened_for};
ghost use Rattle.many_cores.specs.Cores.{IsCore, after, met, said, HasNoFewer};

use framing::LONGEST_PIECE;
use hub_io::{Event, Limits};
use kit_bytes::ConnId;
use qmi_core::QmiCore;
use std::alloc::{AllocError, Global};
use std::marker::Model;

/// The cores of the devices, in their order.
#[derive(Drop)]
pub struct Cores {
    cores: Vec<QmiCore>,
}

impl Model for Cores {
    ghost use Rattle.std.specs.Prelude.{List};
    ghost use Rattle.qmi_state.specs.Core as core;

    ghost Value = { List core.QmiCore };

    ghost view = { λ c. c.cores.items };
}

impl Cores {
    /// A core for the device of each path, to which nothing has happened yet. The modems are there. This
    /// takes all the memory that they will ever need.
    pub fn open(alloc: Global, limits: &Limits, paths: &[&str]) -> Result<Self, AllocError>
        ensures { IfOk result (λ cores. cores ≡ map (λ path. opened_for [] limits.now.time limits.now.release path.now) paths.now) }
    {
        let mut cores = Vec::with_capacity(alloc, paths.len())?;
        for path in paths {
            cores.push_reserved(open_one(alloc, limits, path)?);
        }
        Ok(Cores { cores })
    }

    /// How many devices there are.
    pub fn count(&self) -> usize
        ensures { result ≡ length self.now }
    {
        self.cores.len()
    }

    /// The core of a device that there is.
    pub fn at(&self, device: usize) -> &QmiCore
        requires { device < length self.now }
        ensures { (core : CoreValue) → IsCore core self.now device → result.now ≡ core }
    {
        &self.cores[device]
    }

    /// The core of a device meets an event, and whom it dropped before has been hung up. Says whether
    /// it has fewer connections then.
    pub fn meet(&mut self, device: usize, event: Event<'_>) -> bool
        requires within { device < length self.old }
        requires may_come { (core : CoreValue) → IsCore core self.old device → MayMeet qmi_handlers (event_of event) (hung_up core) }
        ensures met { (core : CoreValue) → IsCore core self.old device → self.new ≡ set self.old device (met (event_of event.entry) core) }
        ensures fewer { (core : CoreValue) → IsCore core self.old device → result ≡ nat_lt (length (met (event_of event.entry) core).state.table.present) (length core.state.table.present) }
    {
        let core = &mut self.cores[device];
        meet(core, event)
    }

    /// Each core is told the time, and whom it dropped before has been hung up. Says false only where
    /// none has fewer connections then.
    pub fn tick(&mut self, time: u64) -> bool
        ensures met { self.new ≡ map (met (history.Now time)) self.old }
        ensures fewer { result ≡ false → (device : ℕ) → HasNoFewer device (history.Now time) self.old }
    {
        let mut fewer = false;
        let mut device = 0;
        while device < self.count() {
            fewer |= self.meet(device, Event::Now(time));
            device += 1;
        }
        fewer
    }

    /// A client arrives at a device under this name: it says what it said before, and then this.
    pub fn arrive(&mut self, device: usize, name: ConnId, before: &[u8], piece: &[u8])
        requires within { device < length self.old }
        requires newer { (core : CoreValue) → IsCore core self.old device → core.state.table.greatest < name }
        requires short { length piece.now ≤ LONGEST_PIECE }
        ensures { (core : CoreValue) → IsCore core self.old device → self.new ≡ set self.old device (after (arrival name before.now piece.now) core) }
    {
        let core = &mut self.cores[device];
        arrive(core, name, before, piece);
    }
}

// A core for the device of a path.
fn open_one(alloc: Global, limits: &Limits, path: &str) -> Result<QmiCore, AllocError>
    ensures { IfOk result (λ core. core ≡ opened_for [] limits.now.time limits.now.release path.now) }
{
    let core = QmiCore::open(alloc, limits, path)?;
    Ok(core)
}

// Whom the core dropped has been hung up.
fn hang_up(core: &mut QmiCore)
    ensures { core.new ≡ hung_up core.old }
{
    while core.next_dropped().is_some() {}
}

// The core meets an event, and whom it dropped before has been hung up. Says whether it has fewer
// connections then.
fn meet(core: &mut QmiCore, event: Event<'_>) -> bool
    requires { MayMeet qmi_handlers (event_of event) (hung_up core.old) }
    ensures met { core.new ≡ met (event_of event.entry) core.old }
    ensures fewer { result ≡ nat_lt (length core.new.state.table.present) (length core.old.state.table.present) }
{
    hang_up(core);
    let before = core.present();
    core.step(event);
    core.present() < before
}

// A client arrives, and says both one after the other.
fn arrive(core: &mut QmiCore, name: ConnId, before: &[u8], piece: &[u8])
    requires newer { core.old.state.table.greatest < name }
    requires short { length piece.now ≤ LONGEST_PIECE }
    ensures { core.new ≡ after (arrival name before.now piece.now) core.old }
{
    meet(core, Event::Joined(name));
    say(core, name, before);
    meet(core, Event::Piece(name, piece));
}

// A client says these bytes, in pieces.
fn say(core: &mut QmiCore, name: ConnId, bytes: &[u8])
    ensures { core.new ≡ said name (in_pieces bytes.now) core.old }
{
    let mut rest = bytes;
    while !rest.is_empty() {
        let (piece, others) = rest.split_at(LONGEST_PIECE.min(rest.len()));
        meet(core, Event::Piece(name, piece));
        rest = others;
    }
}

/// Whether somebody of this name is there.
pub fn has(core: &QmiCore, name: ConnId) -> bool
    ensures { result ≡ has name (Some core.now) }
{
    let mut place = 0;
    while place < core.present() {
        if name == core.conn_at(place) {
            return true;
        }
        place += 1;
    }
    false
}
