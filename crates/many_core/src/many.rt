ghost use Rattle.std.specs.Prelude.{◌≡◌, ◌<◌, ◌≤◌, ◌++◌, ◌==◌, ◌&&◌, ℕ, List, [], ◌∷◌, false, true, nat_lt, length, drop, map, position, None, Some, IfOk, IfSome, IsNone, IsTrue};
ghost use Rattle.std.specs.List.{AllByRecursion};
ghost use Rattle.connections.specs.Table.{IsRegular, first_waiting as first_waiting_in};
ghost use Rattle.outbox.specs.Fronts.{IsFrontOf};
ghost use Rattle.proxy_state.specs.Stands as state;
ghost use Rattle.proxy_solo.specs.Cores.{hung_up};
ghost use Rattle.qmi_state.specs.Transitions.{qmi_handlers};
ghost use Rattle.hub_io.specs.Events.{event_of as one_event_of};
ghost use Rattle.many_state.specs.Laws.{is_joining};
ghost use Rattle.qmi_state.specs.Core.{QmiCore as CoreValue};
ghost use Rattle.many_history.specs.Events.{ManyEvent as HistoryEvent};
ghost use Rattle.many_history.specs.Events as history;
ghost use Rattle.many_history.specs.Many.{Seat as ManySeat, place_of, there, ended};
ghost use Rattle.many_state.specs.Core.{greatest_after, has as has_in, is_there_in, queue_at, queue_under};
ghost use Rattle.many_seats.specs.Seats.{IsSeat, IsPlaceOf, chosen_in, first_conn};
ghost use Rattle.many_cores.specs.Cores.{IsCore, HasNoFewer, at_place};
ghost use Rattle.many_cores.specs.Cores.{met as met_one};
ghost use Rattle.many_io.specs.Events.{event_of};
ghost use Rattle.many_core.specs.Core.{Stands, StandsAfter, MayMeet, IsBounded, with_cores, met, settled, step, MovesNobody, waiting_for, text_for, is_owed, is_at, has_waiting, first_waiting, NobodyWaitsBefore, modem_queue, time_in, time_at, is_away_at};

use framing::LONGEST_PIECE;
use hub_io::{Event, Limits};
use kit_bytes::ConnId;
use many_cores::{Cores, has};
use many_io::ManyEvent;
use many_seats::{Paths, Seats};
use qmi_core::QmiCore;
use std::alloc::{AllocError, Global};
use std::marker::Model;

/// A proxy between several clients and the modems of several devices.
#[derive(Drop)]
pub struct ManyCore {
    paths: Paths,
    limits: Limits,
    cores: Cores,
    seats: Seats,
}

impl Model for ManyCore {
    ghost use Rattle.std.specs.Prelude.{◌≡◌, ◌<◌, length, map};
    ghost use Rattle.std.specs.List.{AllByRecursion};
    ghost use Rattle.many_seats.specs.Seats.{IsPlaceOf};
    ghost use Rattle.many_core.specs.Core as core;

    ghost Value = { core.ManyCore };

    ghost view = { λ c. record { paths = c.paths; limits = c.limits; core = record { cores = c.cores; seats = c.seats.seats; dropped = c.seats.dropped; greatest = c.seats.greatest } } };

    ghost invariant = { λ c. record {
      some : 0 < length c.paths;
      count : length c.cores ≡ length c.paths;
      names : c.seats.names ≡ map (λ k. k.state.table.greatest) c.cores;
      places : AllByRecursion (λ seat. IsPlaceOf (length c.paths) seat.place) c.seats.seats;
    } };
}

impl ManyCore {
    /// A proxy that nothing has happened to yet, for the devices of these paths, of which there is one
    /// at least. The modems are there. This takes all the memory that it will ever need.
    pub fn open(alloc: Global, limits: &Limits, paths: &[&str]) -> Result<Self, AllocError>
        requires { 0 < length paths.now }
        ensures stands { IfOk result (λ core. Stands [] core) }
        ensures paths { IfOk result (λ core. core.paths ≡ map (λ path. path.now) paths.now) }
        ensures limits { IfOk result (λ core. core.limits ≡ limits.now) }
    {
        Ok(ManyCore {
            paths: Paths::copy_of(alloc, paths)?,
            limits: *limits,
            cores: Cores::open(alloc, limits, paths)?,
            seats: Seats::open(alloc, paths.len())?,
        })
    }

    /// Meets an event. Afterwards at most 262,144 bytes wait for a client, and at most 1,048,576 for the
    /// modem of a device.
    pub fn step(&mut self, event: ManyEvent<'_>)
        requires { MayMeet (event_of event) self.old }
        ensures stands { (events : List HistoryEvent) → Stands events self.old → StandsAfter (event_of event.entry ∷ events) self.new }
        ensures step { (events : List HistoryEvent) → Stands events self.old → self.new ≡ step (event_of event.entry) self.old }
        ensures bounded { (events : List HistoryEvent) → Stands events self.old → IsBounded self.new }
        ensures cores { length self.new.core.cores ≡ length self.old.core.cores }
        ensures greatest { self.new.core.greatest ≡ greatest_after (event_of event.entry) self.old.core.greatest }
    {
        self.seats.hang_up();
        if self.meet(event) {
            self.settle();
        }
    }

    // Meets an event, and says whether somebody may be gone by it for the core of a device.
    fn meet(&mut self, event: ManyEvent<'_>) -> bool
        requires may_come { MayMeet (event_of event) self.old }
        requires hung_up { self.old.core.dropped ≡ [] }
        ensures met { self.new ≡ met (event_of event.entry) self.old }
        ensures moved { result ≡ false → MovesNobody (event_of event.entry) self.old }
    {
        match event {
            ManyEvent::Joined(conn) => self.join(conn),
            ManyEvent::Piece(conn, piece) => self.bring(conn, piece),
            ManyEvent::Left(conn) => self.leave(conn),
            ManyEvent::Took(conn, count) => self.take(conn, count),
            ManyEvent::ModemPiece(device, piece) => self.bring_modem(device, piece),
            ManyEvent::ModemGone(device) => self.lose_modem(device),
            ManyEvent::ModemBack(device) => self.regain_modem(device),
            ManyEvent::ModemTook(device, count) => self.take_modem(device, count),
            ManyEvent::Now(time) => self.tick(time),
        }
    }

    // The core of a device meets an event at which nobody joins it.
    fn meet_at(&mut self, device: usize, event: Event<'_>) -> bool
        requires within { device < length self.old.core.cores }
        requires joins { is_joining (one_event_of event) ≡ false }
        requires may_come { (core : CoreValue) → IsCore core self.old.core.cores device → state.MayMeet qmi_handlers (one_event_of event) (hung_up core) }
        ensures met { self.new ≡ with_cores (at_place device (met_one (one_event_of event.entry)) self.old.core.cores) self.old }
        ensures fewer { result ≡ false → HasNoFewer device (one_event_of event.entry) self.old.core.cores }
    {
        self.cores.meet(device, event)
    }

    // A client connected.
    fn join(&mut self, conn: ConnId) -> bool
        requires newer { self.old.core.greatest < conn }
        requires hung_up { self.old.core.dropped ≡ [] }
        ensures met { self.new ≡ met (history.Joined conn) self.old }
        ensures moved { MovesNobody (history.Joined conn) self.old }
        ensures stays { result ≡ false }
    {
        self.seats.join(conn);
        false
    }

    // A piece of a client's stream.
    fn bring(&mut self, conn: ConnId, piece: &[u8]) -> bool
        requires short { length piece.now ≤ LONGEST_PIECE }
        requires hung_up { self.old.core.dropped ≡ [] }
        ensures met { self.new ≡ met (history.Piece conn piece.now) self.old }
        ensures moved { result ≡ false → MovesNobody (history.Piece conn piece.now) self.old }
    {
        let Some(place) = self.seats.find(conn) else {
            return false;
        };
        match self.seats.chosen_at(place) {
            Some(chosen) => self.meet_at(chosen.device, Event::Piece(chosen.name, piece)),
            None => self.hear(place, conn, piece),
        }
    }

    // A piece of one that hasn't chosen yet, at this place.
    fn hear(&mut self, place: usize, conn: ConnId, piece: &[u8]) -> bool
        requires at { Some place ≡ position (λ seat. seat.conn == conn) self.old.core.seats }
        requires within { place < length self.old.core.seats }
        requires undecided { (seat : ManySeat) → IsSeat seat self.old.core.seats place → chosen_in seat.place ≡ None }
        requires short { length piece.now ≤ LONGEST_PIECE }
        requires hung_up { self.old.core.dropped ≡ [] }
        ensures met { self.new ≡ met (history.Piece conn piece.now) self.old }
        ensures moved { result ≡ false → MovesNobody (history.Piece conn piece.now) self.old }
    {
        self.seats.say(place, piece);
        let stream = self.seats.said_at(place);
        let Some(device) = self.paths.choice(stream) else {
            return false;
        };
        let name = self.seats.next_name(place, device);
        let before = &stream[..stream.len() - piece.len()];
        self.cores.arrive(device, name, before, piece);
        self.seats.choose(place, device, name);
        true
    }

    // A client is gone.
    fn leave(&mut self, conn: ConnId) -> bool
        requires { self.old.core.dropped ≡ [] }
        ensures met { self.new ≡ met (history.Left conn) self.old }
        ensures moved { result ≡ false → MovesNobody (history.Left conn) self.old }
    {
        let Some(place) = self.seats.find(conn) else {
            return false;
        };
        let chosen = self.seats.chosen_at(place);
        self.seats.leave_at(place);
        match chosen {
            Some(chosen) => {
                self.meet_at(chosen.device, Event::Left(chosen.name));
                true
            }
            None => true,
        }
    }

    // A client's socket took the first so many of the bytes that waited for it.
    fn take(&mut self, conn: ConnId, count: usize) -> bool
        requires may_come { MayMeet (history.Took conn count) self.old }
        requires hung_up { self.old.core.dropped ≡ [] }
        ensures met { self.new ≡ met (history.Took conn count) self.old }
        ensures moved { result ≡ false → MovesNobody (history.Took conn count) self.old }
    {
        let Some(place) = self.seats.find(conn) else {
            return false;
        };
        match self.seats.chosen_at(place) {
            Some(chosen) => self.meet_at(chosen.device, Event::Took(chosen.name, count)),
            None => false,
        }
    }

    // A piece of what a device's modem says.
    fn bring_modem(&mut self, device: usize, piece: &[u8]) -> bool
        requires may_come { MayMeet (history.ModemPiece device piece.now) self.old }
        requires hung_up { self.old.core.dropped ≡ [] }
        ensures met { self.new ≡ met (history.ModemPiece device piece.now) self.old }
        ensures moved { result ≡ false → MovesNobody (history.ModemPiece device piece.now) self.old }
    {
        self.meet_at(device, Event::ModemPiece(piece))
    }

    // A device's modem is gone.
    fn lose_modem(&mut self, device: usize) -> bool
        requires may_come { MayMeet (history.ModemGone device) self.old }
        requires hung_up { self.old.core.dropped ≡ [] }
        ensures met { self.new ≡ met (history.ModemGone device) self.old }
        ensures moved { result ≡ false → MovesNobody (history.ModemGone device) self.old }
    {
        self.meet_at(device, Event::ModemGone)
    }

    // A device's modem is back.
    fn regain_modem(&mut self, device: usize) -> bool
        requires may_come { MayMeet (history.ModemBack device) self.old }
        requires hung_up { self.old.core.dropped ≡ [] }
        ensures met { self.new ≡ met (history.ModemBack device) self.old }
        ensures moved { result ≡ false → MovesNobody (history.ModemBack device) self.old }
    {
        self.meet_at(device, Event::ModemBack)
    }

    // A device's modem took the first so many of the bytes that waited for it.
    fn take_modem(&mut self, device: usize, count: usize) -> bool
        requires may_come { MayMeet (history.ModemTook device count) self.old }
        requires hung_up { self.old.core.dropped ≡ [] }
        ensures met { self.new ≡ met (history.ModemTook device count) self.old }
        ensures moved { result ≡ false → MovesNobody (history.ModemTook device count) self.old }
    {
        self.meet_at(device, Event::ModemTook(count))
    }

    // The clock shows this time.
    fn tick(&mut self, time: u64) -> bool
        requires { self.old.core.dropped ≡ [] }
        ensures met { self.new ≡ met (history.Now time) self.old }
        ensures moved { result ≡ false → MovesNobody (history.Now time) self.old }
    {
        self.cores.tick(time)
    }

    // Whoever isn't there for its device any more is dropped.
    fn settle(&mut self)
        ensures { self.new ≡ settled self.old }
    {
        settle(&mut self.seats, &self.cores);
    }

    // The core of the device at which a connection is that is there, or was dropped and wasn't asked for
    // yet, and its name there.
    fn core_of(&self, conn: ConnId) -> Option<(&QmiCore, u64)>
        ensures found { IfSome result (λ found. waiting_for conn self.now ≡ state.waiting_for found.1 found.0.now) }
        ensures none { IsNone result → waiting_for conn self.now ≡ [] }
        ensures some { 0 < length self.now.paths }
    {
        let chosen = self.seats.chosen(conn)?;
        if chosen.device >= self.cores.count() {
            return None;
        }
        Some((self.cores.at(chosen.device), chosen.name))
    }

    /// The first of the bytes that wait for a connection that is there, or that was dropped and wasn't
    /// asked for yet; none only where none wait, and for any other name.
    pub fn queued(&self, conn: ConnId) -> &[u8]
        ensures queue { IsFrontOf result.now (waiting_for conn self.now) }
        ensures text { (events : List HistoryEvent) → Stands events self.now → IsTrue (is_owed conn self.now) → IsFrontOf result.now (text_for self.now conn events).waiting }
    {
        match self.core_of(conn) {
            Some((core, name)) => core.queued(name),
            None => &[],
        }
    }

    /// The first of the bytes that wait for a connection that is there, those of whoever was dropped left
    /// aside; none only where none wait, and for any other name.
    pub fn queued_there(&self, conn: ConnId) -> &[u8]
        ensures { IsFrontOf result.now (queue_at qmi_handlers self.now.core.cores (place_of conn self.now.core.seats)) }
    {
        match self.seats.find(conn) {
            Some(place) => self.queued_at(place),
            None => &[],
        }
    }

    // The first of the bytes that wait for the connection of this place; none only where none wait.
    fn queued_at(&self, place: usize) -> &[u8]
        requires { place < length self.now.core.seats }
        ensures { (seat : ManySeat) → IsSeat seat self.now.core.seats place → IsFrontOf result.now (queue_at qmi_handlers self.now.core.cores (Some seat.place)) }
    {
        match self.seats.chosen_at(place) {
            Some(chosen) => queued_in(self.cores.at(chosen.device), chosen.name, place),
            None => &[],
        }
    }

    // Whether there is a connection at this place, and bytes wait for it.
    fn has_waiting_at(&self, place: usize) -> bool
        ensures within { result ≡ true → place < length self.now.core.seats }
        ensures fits { result ≡ true → place < usize.MAX }
        ensures waits { result ≡ true → (seat : ManySeat) → IsSeat seat self.now.core.seats place → has_waiting self.now.core.cores seat ≡ true }
    {
        place < self.seats.present() && !self.queued_at(place).is_empty()
    }

    /// All the bytes that wait for a connection that is there, or that was dropped and wasn't asked for
    /// yet, in two parts; none for any other name.
    pub fn parts(&self, conn: ConnId) -> (&[u8], &[u8])
        ensures queue { result.0.now ++ result.1.now ≡ waiting_for conn self.now }
        ensures text { (events : List HistoryEvent) → Stands events self.now → IsTrue (is_owed conn self.now) → result.0.now ++ result.1.now ≡ (text_for self.now conn events).waiting }
    {
        match self.core_of(conn) {
            Some((core, name)) => core.parts(name),
            None => (&[], &[]),
        }
    }

    /// The first of the bytes that wait for the modem of a device; none only where none wait.
    pub fn queued_modem(&self, device: usize) -> &[u8]
        requires { device < length self.now.core.cores }
        ensures queue { (core : CoreValue) → IsCore core self.now.core.cores device → IsFrontOf result.now core.state.beside.traffic.waiting }
        ensures text { (events : List HistoryEvent) → Stands events self.now → IsFrontOf result.now (modem_queue self.now device events) }
    {
        self.cores.at(device).queued_modem()
    }

    /// All the bytes that wait for the modem of a device, in two parts.
    pub fn modem_parts(&self, device: usize) -> (&[u8], &[u8])
        requires { device < length self.now.core.cores }
        ensures queue { (core : CoreValue) → IsCore core self.now.core.cores device → result.0.now ++ result.1.now ≡ core.state.beside.traffic.waiting }
        ensures text { (events : List HistoryEvent) → Stands events self.now → result.0.now ++ result.1.now ≡ modem_queue self.now device events }
    {
        self.cores.at(device).modem_parts()
    }

    /// Whether the modem of a device is away.
    pub fn away(&self, device: usize) -> bool
        requires { device < length self.now.core.cores }
        ensures away { (core : CoreValue) → IsCore core self.now.core.cores device → result ≡ core.state.beside.away }
        ensures told { (events : List HistoryEvent) → Stands events self.now → result ≡ is_away_at self.now device events }
    {
        self.cores.at(device).away()
    }

    /// The greatest time so far that the clock showed, in milliseconds.
    pub fn time(&self) -> u64
        ensures time { result ≡ time_in self.now.core.cores }
        ensures told { (events : List HistoryEvent) → Stands events self.now → result ≡ time_at self.now events }
    {
        self.cores.at(0).time()
    }

    /// The next connection to hang up, each once.
    pub fn next_dropped(&mut self) -> Option<ConnId>
        ensures first { result ≡ first_conn self.old.core.dropped }
        ensures asked { self.new ≡ record self.old { core = record self.old.core { dropped = drop 1 self.old.core.dropped } } }
        ensures stands { (events : List HistoryEvent) → Stands events self.old → Stands events self.new }
    {
        self.seats.next_dropped()
    }

    /// How many devices there are.
    pub fn devices(&self) -> usize
        ensures { result ≡ length self.now.core.cores }
    {
        self.cores.count()
    }

    /// How many connections are there.
    pub fn present(&self) -> usize
        ensures { result ≡ length self.now.core.seats }
    {
        self.seats.present()
    }

    /// The connection of this place in the order of joining.
    pub fn conn_at(&self, place: usize) -> ConnId
        requires { place < length self.now.core.seats }
        ensures { (seat : ManySeat) → IsSeat seat self.now.core.seats place → result ≡ seat.conn }
    {
        self.seats.conn_at(place)
    }

    /// The place of the first connection, from this place on in the order of joining, for which bytes
    /// wait.
    pub fn waiting_from(&self, from: usize) -> Option<usize>
        requires { from ≤ length self.now.core.seats }
        ensures place { result ≡ first_waiting from self.now }
        ensures within { IfSome result (λ place. (from ≤ place) × (place < length self.now.core.seats)) }
        ensures fits { IfSome result (λ place. place < usize.MAX) }
    {
        if self.has_waiting_at(from) {
            return Some(from);
        }
        let mut first = self.seats.present();
        let mut device = 0;
        while device < self.cores.count() {
            first = self.first_waiting_at(device, from, first);
            device += 1;
        }
        if first < self.seats.present() {
            Some(first)
        } else {
            None
        }
    }

    // The place of the first connection, from this place on and in front of another one, that is at this
    // device and for which bytes wait; the other place where there is none.
    fn first_waiting_at(&self, device: usize, from: usize, end: usize) -> usize
        requires device { device < length self.now.core.cores }
        requires order { from ≤ end }
        requires end { end ≤ length self.now.core.seats }
        ensures within { (from ≤ result) × (result ≤ end) }
        ensures found { result < end → (seat : ManySeat) → IsSeat seat self.now.core.seats result → has_waiting self.now.core.cores seat ≡ true }
        ensures others { (place : ℕ) (seat : ManySeat) → from ≤ place → place < result → IsSeat seat self.now.core.seats place → is_at device seat.place ≡ true → has_waiting self.now.core.cores seat ≡ false }
    {
        let core = self.cores.at(device);
        let Some(first) = core.waiting_from(0) else {
            return end;
        };
        let least = least_waiting(core, first);
        let mut place = from;
        while place < end {
            if self.waits_at(place, device, least) {
                return place;
            }
            place += 1;
        }
        end
    }

    // Whether the connection of this place is at this device, and bytes wait for it. They wait under no
    // name there that is lower than this one.
    fn waits_at(&self, place: usize, device: usize, least: ConnId) -> bool
        requires place { place < length self.now.core.seats }
        requires device { device < length self.now.core.cores }
        requires least { (core : CoreValue) → IsCore core self.now.core.cores device → NobodyWaitsBefore least core }
        ensures { (seat : ManySeat) → IsSeat seat self.now.core.seats place → result ≡ (is_at device seat.place && has_waiting self.now.core.cores seat) }
    {
        match self.seats.chosen_at(place) {
            Some(chosen) if chosen.device == device => {
                waits(self.cores.at(device), chosen.name, place, least)
            }
            _ => false,
        }
    }
}

// The name of the first for whom bytes wait at a device: they wait under no lower one, since names rise
// there in order of joining.
fn least_waiting(core: &QmiCore, first: usize) -> ConnId
    requires first { Some first ≡ first_waiting_in 0 core.now.state.table.present }
    requires within { first < length core.now.state.table.present }
    requires regular { IsRegular core.now.state.table }
    ensures { NobodyWaitsBefore result core.now }
{
    core.conn_at(first)
}

// Whether bytes wait for one that is there for its device, likely at this place. They wait under no name
// there that is lower than the last one.
fn waits(core: &QmiCore, name: ConnId, place: usize, least: ConnId) -> bool
    requires { NobodyWaitsBefore least core.now }
    ensures { result ≡ nat_lt 0 (length (queue_under qmi_handlers name (Some core.now))) }
{
    if name < least {
        return false;
    }
    !queued_in(core, name, place).is_empty()
}

// Whether somebody of this name is there for a device, likely at this place.
fn has_at(core: &QmiCore, name: ConnId, place: usize) -> bool
    ensures { result ≡ has_in name (Some core.now) }
{
    if place < core.present() {
        if name == core.conn_at(place) {
            return true;
        }
    }
    has(core, name)
}

// The first of the bytes that wait for one that is there for its device, likely at this place.
fn queued_in(core: &QmiCore, name: ConnId, place: usize) -> &[u8]
    ensures { IsFrontOf result.now (queue_under qmi_handlers name (Some core.now)) }
{
    let queue = core.queued(name);
    if queue.is_empty() {
        return queue;
    }
    if has_at(core, name, place) {
        queue
    } else {
        &[]
    }
}

// Whoever isn't there for its device any more is dropped.
fn settle(seats: &mut Seats, cores: &Cores)
    requires { AllByRecursion (λ seat. IsPlaceOf (length cores.now) seat.place) seats.old.seats }
    ensures seats { seats.new.seats ≡ there (is_there_in cores.now) seats.old.seats }
    ensures dropped { seats.new.dropped ≡ seats.old.dropped ++ ended (is_there_in cores.now) seats.old.seats }
    ensures names { seats.new.names ≡ seats.old.names }
    ensures greatest { seats.new.greatest ≡ seats.old.greatest }
{
    let mut place = 0;
    while place < seats.present() {
        if is_there(seats, cores, place) {
            place += 1;
        } else {
            seats.drop_at(place);
        }
    }
}

// Whether the connection of this place is there for its device; so is one that has chosen none.
fn is_there(seats: &Seats, cores: &Cores, place: usize) -> bool
    requires within { place < length seats.now.seats }
    requires places { AllByRecursion (λ seat. IsPlaceOf (length cores.now) seat.place) seats.now.seats }
    ensures { (seat : ManySeat) → IsSeat seat seats.now.seats place → result ≡ is_there_in cores.now seat.place }
{
    match seats.chosen_at(place) {
        Some(chosen) => has(cores.at(chosen.device), chosen.name),
        None => true,
    }
}
