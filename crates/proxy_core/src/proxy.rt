ghost use Rattle.std.specs.Prelude.{◌≡◌, ◌++◌, ◌<◌, ◌≤◌, length, not, true, slice_get, ℕ, Some, List, [], ◌∷◌, IfOk, IfSome, IsNone, IsTrue};
ghost use Rattle.std.specs.Str.{encode_utf8_all};
ghost use Rattle.framing.specs.Cutting.{cut};
ghost use Rattle.framing.specs.Framing.{IsPartial, is_invalid};
ghost use Rattle.outbox.specs.Fronts.{IsFrontOf};
ghost use Rattle.connections.specs.Table.{IsRegular, first_waiting};
ghost use Rattle.hub_io.specs.Events.{event_of};
ghost use Rattle.proxy_history.specs.Events as history;
ghost use Rattle.proxy_history.specs.Events.{greatest_after};
ghost use Rattle.proxy_history.specs.History.{modem_queue, text_for};
ghost use Rattle.proxy_state.specs.Step.{hear_all};
ghost use Rattle.proxy_state.specs.Stands.{waiting_for, is_owed, names_of, NextDropped};
ghost use Rattle.proxy_core.specs.Meaning.{Agrees, handlers_at, state_of};
ghost use Rattle.proxy_core.specs.Core.{CanStep, Stands, StandsAfter, IsBounded, handlers_in, lasting_in, opened_core, meet, finished, lose, step};

use crate::protocol::Protocol;
use connections::Connections;
use framing::{Cutter, LONGEST_PIECE};
use hub_io::{Event, Limits};
use kit_bytes::{ConnId, Cut};
use std::alloc::{AllocError, Global};
use std::marker::Model;

/// How many connections are there at most.
const CONNECTION_LIMIT: u16 = 64;

/// How many bytes wait for a client at most.
const OUTBOX_LIMIT: usize = 262_144;

/// A proxy between several clients and one modem.
#[derive(Drop)]
pub struct Core<P: Protocol> {
    connections: Connections<P::Frame, P::Client>,
    side: P::Side,
    hand: P,
    // of the modem's stream
    cutter: Cutter<P::Frame>,
}

impl<P: Protocol> Model for Core<P> {
    ghost use Rattle.framing.specs.Framing.{IsPartial};
    ghost use Rattle.proxy_core.specs.Meaning.{Agrees, state_of};
    ghost use Rattle.proxy_state.specs.State as state;

    ghost Value = { state.Core P.Client P.Side };

    ghost view = { λ c. record { state = state_of c.connections c.side; rest = c.cutter.rest } };

    ghost invariant = { λ c. record {
      agrees : Agrees P.meaning c.connections c.side c.hand;
      partial : IsPartial P.Frame.size c.cutter.rest;
    } };
}

impl<P: Protocol> Core<P> {
    /// A proxy that nothing has happened to yet, for the device of this path. The modem is there. This
    /// takes all the memory that it will ever need.
    pub fn open(alloc: Global, limits: &Limits, device: &str) -> Result<Self, AllocError>
        ensures opened { (path : List ℕ) → device.now ≡ encode_utf8_all path → IfOk result (λ core. core ≡ opened_core P.meaning (P.meaning.opening limits.now path)) }
        ensures stands { (path : List ℕ) → device.now ≡ encode_utf8_all path → IfOk result (λ core. Stands P.meaning (P.meaning.opening limits.now path) [] core) }
    {
        let connections = Connections::open(alloc, CONNECTION_LIMIT, OUTBOX_LIMIT)?;
        let cutter = Cutter::open(alloc)?;
        let (hand, side) = P::open(alloc, limits, device)?;
        Ok(Core {
            connections,
            side,
            hand,
            cutter,
        })
    }

    /// Meets an event. Afterwards at most 262,144 bytes wait for a client, and at most 1,048,576 for the
    /// modem.
    pub fn step(&mut self, event: Event<'_>)
        requires { CanStep P.meaning (event_of event) self.old }
        ensures stands { (setup : P.meaning.Setup) (events : List history.Event) → P.meaning.serves setup (lasting_in P.meaning self.old) →
            Stands P.meaning setup events self.old → StandsAfter P.meaning setup (event_of event.entry ∷ events) self.new }
        ensures bounded { (setup : P.meaning.Setup) (events : List history.Event) → P.meaning.serves setup (lasting_in P.meaning self.old) →
            Stands P.meaning setup events self.old → IsBounded P.meaning self.new }
        ensures lasting { lasting_in P.meaning self.new ≡ lasting_in P.meaning self.old }
        ensures step { self.new ≡ step P.meaning P.Frame.size (event_of event.entry) self.old }
        ensures greatest { self.new.state.table.greatest ≡ greatest_after (event_of event.entry) self.old.state.table.greatest }
    {
        self.meet(event);
        self.finish();
    }

    // What an event changes before its end.
    fn meet(&mut self, event: Event<'_>)
        requires { CanStep P.meaning (event_of event) self.old }
        ensures { self.new ≡ meet P.meaning P.Frame.size (event_of event.entry) self.old }
    {
        match event {
            Event::Joined(name) => self.join(name),
            Event::Piece(name, piece) => self.bring(name, piece),
            Event::Left(name) => self.leave(name),
            Event::Now(time) => self.tick(time),
            Event::Took(name, count) => self.take(name, count),
            Event::ModemPiece(piece) => self.bring_modem(piece),
            Event::ModemGone => self.lose_modem(),
            Event::ModemBack => self.regain_modem(),
            Event::ModemTook(count) => self.take_modem(count),
        }
    }

    fn finish(&mut self)
        ensures { self.new ≡ finished P.meaning P.Frame.size self.old }
    {
        self.hand.finish(&mut self.connections, &mut self.side);
    }

    // A client connected: it is let in, or is to be hung up where as many as may be are there.
    fn join(&mut self, name: ConnId)
        requires newer { self.old.state.table.greatest < name }
        requires hung_up { self.old.state.table.dropped ≡ [] }
        ensures { self.new ≡ meet P.meaning P.Frame.size (history.Joined name) self.old }
    {
        if self.connections.join(name) {
            self.hand.join(&self.side, name);
        }
    }

    // A client is gone.
    fn leave(&mut self, name: ConnId)
        ensures { self.new ≡ meet P.meaning P.Frame.size (history.Left name) self.old }
    {
        if self.connections.leave(name) {
            self.hand.give_up(&mut self.side, name);
        }
    }

    // A client's socket took the first so many of the bytes that waited for it.
    fn take(&mut self, name: ConnId, count: usize)
        requires { count ≤ length (waiting_for name self.old) }
        ensures { self.new ≡ meet P.meaning P.Frame.size (history.Took name count) self.old }
    {
        self.connections.take(name, count);
    }

    // A piece of a client's stream.
    fn bring(&mut self, name: ConnId, piece: &[u8])
        requires { length piece.now ≤ LONGEST_PIECE }
        ensures { self.new ≡ meet P.meaning P.Frame.size (history.Piece name piece.now) self.old }
    {
        self.hand
            .bring(&mut self.connections, &mut self.side, name, piece);
    }

    // The clock shows this time.
    fn tick(&mut self, time: u64)
        ensures { self.new ≡ meet P.meaning P.Frame.size (history.Now time) self.old }
    {
        self.hand.tick(&mut self.connections, &mut self.side, time);
    }

    // The modem took the first so many of the bytes that waited for it.
    fn take_modem(&mut self, count: usize)
        requires { count ≤ length ((handlers_in P.meaning self.old).modem_queue self.old.state.beside) }
        ensures { self.new ≡ meet P.meaning P.Frame.size (history.ModemTook count) self.old }
    {
        self.hand.take_modem(&mut self.side, count);
    }

    // What a modem sends that is away doesn't count.
    fn bring_modem(&mut self, piece: &[u8])
        requires { length piece.now ≤ LONGEST_PIECE }
        ensures { self.new ≡ meet P.meaning P.Frame.size (history.ModemPiece piece.now) self.old }
    {
        if P::away(&self.side) {
            return;
        }
        self.cutter.push(piece);
        if !hear_all(
            &mut self.cutter,
            &mut self.connections,
            &mut self.side,
            &mut self.hand,
        ) {
            self.cutter.restart();
            self.lose();
        }
    }

    fn lose_modem(&mut self)
        ensures { self.new ≡ meet P.meaning P.Frame.size history.ModemGone self.old }
    {
        if !P::away(&self.side) {
            self.lose();
        }
    }

    // A modem that comes back while it is there changes nothing.
    fn regain_modem(&mut self)
        ensures { self.new ≡ meet P.meaning P.Frame.size history.ModemBack self.old }
    {
        if P::away(&self.side) {
            self.hand.regain(&mut self.side);
        }
    }

    // The modem is away from here on.
    fn lose(&mut self)
        ensures { self.new ≡ lose P.meaning P.Frame.size self.old }
    {
        self.hand.lose(&mut self.connections, &mut self.side);
        self.cutter.restart();
    }

    /// The first of the bytes that wait for a connection that is there, or that was dropped and wasn't
    /// asked for yet; none only where none wait, and for any other name.
    pub fn queued(&self, conn: ConnId) -> &[u8]
        ensures queue { IsFrontOf result.now (waiting_for conn self.now) }
        ensures text { (setup : P.meaning.Setup) (events : List history.Event) →
            Stands P.meaning setup events self.now → IsTrue (is_owed conn self.now) → IsFrontOf result.now (text_for (P.meaning.protocol setup) conn events).waiting }
    {
        self.connections.queued(conn)
    }

    /// The first of the bytes that wait for the modem; none only where none wait.
    pub fn queued_modem(&self) -> &[u8]
        ensures queue { IsFrontOf result.now ((handlers_in P.meaning self.now).modem_queue self.now.state.beside) }
        ensures text { (setup : P.meaning.Setup) (events : List history.Event) →
            Stands P.meaning setup events self.now → IsFrontOf result.now (modem_queue (P.meaning.protocol setup) events) }
    {
        P::queued(&self.side)
    }

    /// All the bytes that wait for a connection that is there, or that was dropped and wasn't asked for
    /// yet, in two parts; none for any other name.
    pub fn parts(&self, conn: ConnId) -> (&[u8], &[u8])
        ensures queue { result.0.now ++ result.1.now ≡ waiting_for conn self.now }
        ensures text { (setup : P.meaning.Setup) (events : List history.Event) →
            Stands P.meaning setup events self.now → IsTrue (is_owed conn self.now) → result.0.now ++ result.1.now ≡ (text_for (P.meaning.protocol setup) conn events).waiting }
    {
        self.connections.parts(conn)
    }

    /// All the bytes that wait for the modem, in two parts.
    pub fn modem_parts(&self) -> (&[u8], &[u8])
        ensures queue { result.0.now ++ result.1.now ≡ (handlers_in P.meaning self.now).modem_queue self.now.state.beside }
        ensures text { (setup : P.meaning.Setup) (events : List history.Event) →
            Stands P.meaning setup events self.now → result.0.now ++ result.1.now ≡ modem_queue (P.meaning.protocol setup) events }
    {
        P::parts(&self.side)
    }

    /// The place of the first connection, from this place on in the order of joining, for which bytes
    /// wait.
    pub fn waiting_from(&self, from: usize) -> Option<usize>
        requires { from ≤ length self.now.state.table.present }
        ensures place { result ≡ first_waiting from self.now.state.table.present }
        ensures within { IfSome result (λ place. (from ≤ place) × (place < length self.now.state.table.present)) }
        ensures fits { IfSome result (λ place. place < usize.MAX) }
        ensures regular { IsRegular self.now.state.table }
    {
        self.connections.waiting_from(from)
    }

    /// The next connection to hang up, each once.
    pub fn next_dropped(&mut self) -> Option<ConnId>
        ensures next { NextDropped self.old self.new result }
        ensures hung_up { IsNone result → self.new.state.table.dropped ≡ [] }
        ensures stands { (setup : P.meaning.Setup) (events : List history.Event) → Stands P.meaning setup events self.old → Stands P.meaning setup events self.new }
        ensures lasting { lasting_in P.meaning self.new ≡ lasting_in P.meaning self.old }
    {
        self.connections.next_dropped()
    }

    /// Whether the modem is away.
    pub fn away(&self) -> bool
        ensures { result ≡ (handlers_in P.meaning self.now).away self.now.state.beside }
    {
        P::away(&self.side)
    }

    /// The greatest time so far that the clock showed, in milliseconds.
    pub fn time(&self) -> u64
        ensures { result ≡ (handlers_in P.meaning self.now).time self.now.state.beside }
    {
        P::time(&self.side)
    }

    /// How many connections are there.
    pub fn present(&self) -> usize
        ensures { result ≡ length self.now.state.table.present }
    {
        self.connections.present()
    }

    /// The connection of this place in the order of joining.
    pub fn conn_at(&self, index: usize) -> ConnId
        requires { index < length self.now.state.table.present }
        ensures { slice_get (names_of self.now) index ≡ Some result }
    {
        self.connections.name_at(index)
    }
}

// Hears the modem's whole messages, and says whether the stream is good behind them.
fn hear_all<P: Protocol>(
    cutter: &mut Cutter<P::Frame>,
    connections: &mut Connections<P::Frame, P::Client>,
    side: &mut P::Side,
    hand: &mut P,
) -> bool
    requires { Agrees P.meaning connections.old side.old hand.old }
    ensures good { result ≡ not (is_invalid (P.Frame.size (cut P.Frame.size cutter.old.rest).rest)) }
    ensures heard { state_of connections.new side.new ≡ hear_all (handlers_at P.meaning side.old) P.Frame.size (cut P.Frame.size cutter.old.rest).messages (state_of connections.old side.old) }
    ensures agrees { Agrees P.meaning connections.new side.new hand.new }
    ensures rest { result ≡ true → (cutter.new.rest ≡ (cut P.Frame.size cutter.old.rest).rest) × IsPartial P.Frame.size cutter.new.rest }
{
    loop {
        match cutter.next() {
            Cut::Whole(span) => hand.hear_modem(connections, side, cutter.bytes(span)),
            Cut::NeedMore => return true,
            Cut::Bad(_) => return false,
        }
    }
}
