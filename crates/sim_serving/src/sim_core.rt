ghost use Rattle.std.specs.Prelude.{◌≡◌, ◌<◌, ◌≤◌, ◌+◌, ◌==◌, ℕ, [], ◌∷◌, ◌++◌, List, None, Some, length, map, nat_lt, drop, slice_get, position, OnOk, OnErr, IfSome};
ghost use Rattle.std.specs.Option.{option_map};
ghost use Rattle.hub_io.specs.Events.{event_of};
ghost use Rattle.proxy_history.specs.Events as history;
ghost use Rattle.proxy_history.specs.Events.{greatest_after};
ghost use Rattle.proxy_serving.specs.Face.{BringsIn, CanMeet};
ghost use Rattle.served_sim.specs.Conduct.{Conduct};
ghost use Rattle.sim_serving.specs.Core.{named, names_of, no_replies, waiting_for, face_of, StandsFor, StandsAfter, LacksMemory};
ghost use Rattle.sim_serving.specs.Hearing.{Brings, Ticks, changed, gone, ticks_on, took};

use crate::client::Client;
use framing::LONGEST_PIECE;
use hub_io::Event;
use kit_bytes::ConnId;
use served_sim::ServedSim;
use std::alloc::{AllocError, Global};
use std::marker::Model;

/// What serves the clients of a simulated modem: it is told what happens, and keeps what each client
/// is to get.
#[derive(Drop)]
pub struct SimCore<S: ServedSim> {
    alloc: Global,
    sim: S,
    // in order of joining
    clients: Vec<Client<S>>,
    // whose stream went bad or whom the modem hung up, until it is asked for
    dropped: Option<ConnId>,
    // the greatest name of a client so far
    greatest: u64,
}

impl<S: ServedSim> Model for SimCore<S> {
    ghost use Rattle.sim_serving.specs.Core as core;

    ghost Value = { core.Core S };

    ghost view = { λ c. record { sim = c.sim; clients = c.clients.items; dropped = c.dropped; greatest = c.greatest } };
}

impl<S: ServedSim> SimCore<S> {
    /// Nobody is there yet.
    pub fn open(alloc: Global, sim: S) -> Self
        ensures { result ≡ record { sim = sim; clients = []; dropped = None; greatest = 0 } }
    {
        SimCore {
            alloc,
            sim,
            clients: Vec::new(alloc),
            dropped: None,
            greatest: 0,
        }
    }

    /// Meets an event. What a modem tells changes nothing.
    pub fn step(&mut self, event: Event<'_>) -> Result<(), AllocError>
        requires { CanMeet (event_of event) (face_of self.old) }
        ensures stands { OnOk result ((conduct : Conduct) (past : List history.Event) → StandsFor S.Framing.size S.keeps conduct past self.old →
            StandsAfter S.Framing.size S.keeps conduct (event_of event.entry ∷ past) self.new) }
        ensures greatest { OnOk result (self.new.greatest ≡ greatest_after (event_of event.entry) self.old.greatest) }
        ensures memory { OnErr result (LacksMemory S.by_clock (event_of event.entry)) }
        ensures brings { OnErr result (BringsIn (event_of event.entry)) }
    {
        match event {
            Event::Joined(name) => {
                self.join(name)?;
                Ok(())
            }
            Event::Piece(name, piece) => {
                self.bring(name, piece)?;
                Ok(())
            }
            Event::Left(name) => {
                self.leave(name);
                Ok(())
            }
            Event::Took(name, count) => {
                self.take(name, count);
                Ok(())
            }
            Event::ModemPiece(_) => Ok(()),
            Event::ModemGone => Ok(()),
            Event::ModemBack => Ok(()),
            Event::Now(_) => {
                self.tick()?;
                Ok(())
            }
            Event::ModemTook(_) => Ok(()),
        }
    }

    // A client connected: it is there behind the others.
    fn join(&mut self, name: ConnId) -> Result<(), AllocError>
        ensures { OnOk result (self.new ≡ record self.old { clients = self.old.clients ++ record { name = name; rest = []; replies = no_replies } ∷ []; greatest = name }) }
    {
        self.clients.push(Client::open(self.alloc, name)?)?;
        self.greatest = name;
        Ok(())
    }

    // The next piece of a client's stream: the modem is asked what it makes whole, and the client is
    // dropped where the stream goes bad or the modem hangs up.
    fn bring(&mut self, name: ConnId, piece: &[u8]) -> Result<(), AllocError>
        requires { length piece.now ≤ LONGEST_PIECE }
        ensures brought { OnOk result ((ticks : ℕ) (conduct : Conduct) (before : List (List ℕ)) → S.keeps ticks conduct before self.old.sim →
            Brings S.Framing.size S.keeps ticks conduct before (named name self.old.clients) piece.now self.old self.new) }
        ensures greatest { OnOk result (self.new.greatest ≡ self.old.greatest) }
    {
        let Some(place) = place_of(&self.clients, name) else {
            return Ok(());
        };
        let client = &mut self.clients[place];
        if client.hear(piece, &mut self.sim)? {
            return Ok(());
        }
        self.clients.remove(place);
        self.dropped = Some(name);
        Ok(())
    }

    // A client is gone.
    fn leave(&mut self, name: ConnId)
        ensures { self.new ≡ record self.old { clients = gone name self.old.clients } }
    {
        if let Some(place) = place_of(&self.clients, name) {
            self.clients.remove(place);
        }
    }

    // The socket of a client took the first so many of the bytes that waited for it.
    fn take(&mut self, name: ConnId, count: usize)
        requires { count ≤ length (waiting_for name self.old.clients) }
        ensures { self.new ≡ record self.old { clients = changed name (took count) self.old.clients } }
    {
        if let Some(place) = place_of(&self.clients, name) {
            let client = &mut self.clients[place];
            client.take(count);
        }
    }

    // The clock ticks: the modem may tell something, and what was late may be due.
    fn tick(&mut self) -> Result<(), AllocError>
        ensures ticked { OnOk result ((ticks : ℕ) (conduct : Conduct) (before : List (List ℕ)) → S.keeps ticks conduct before self.old.sim → Ticks S.keeps ticks conduct before self.old self.new) }
        ensures greatest { OnOk result (self.new.greatest ≡ self.old.greatest) }
        ensures clock { OnErr result S.by_clock }
    {
        let Some(told) = self.sim.tick()? else {
            return Ok(());
        };
        tick_all(&mut self.clients, told.as_slice())?;
        Ok(())
    }

    /// The bytes that wait for a client; none where it isn't there.
    pub fn queued(&self, name: ConnId) -> &[u8]
        ensures { result.now ≡ waiting_for name self.now.clients }
    {
        match place_of(&self.clients, name) {
            Some(place) => {
                let client = &self.clients[place];
                client.queued()
            }
            None => &[],
        }
    }

    /// The client that is to be hung up, once.
    pub fn next_dropped(&mut self) -> Option<ConnId>
        ensures next { result ≡ self.old.dropped }
        ensures asked { self.new ≡ record self.old { dropped = None } }
    {
        self.dropped.take()
    }

    /// The place of the first client, from this place on, for which bytes wait.
    pub fn waiting_from(&self, from: usize) -> Option<usize>
        requires { from ≤ length self.now.clients }
        ensures place { result ≡ option_map (λ at. from + at) (position (λ k. nat_lt 0 (length k.replies.waiting)) (drop from self.now.clients)) }
        ensures within { IfSome result (λ place. (from ≤ place) × (place < length self.now.clients)) }
        ensures fits { IfSome result (λ place. place < usize.MAX) }
    {
        match waiting_in(&self.clients[from..]) {
            Some(at) => Some(from + at),
            None => None,
        }
    }

    /// How many clients are there.
    pub fn present(&self) -> usize
        ensures { result ≡ length self.now.clients }
    {
        self.clients.len()
    }

    /// The name of the client of this place.
    pub fn name_at(&self, place: usize) -> ConnId
        requires { place < length self.now.clients }
        ensures { slice_get (names_of self.now.clients) place ≡ Some result }
    {
        let client = &self.clients[place];
        client.name()
    }
}

// Where the client of this name stands.
fn place_of<S: ServedSim>(clients: &[Client<S>], name: ConnId) -> Option<usize>
    ensures place { result ≡ position (λ k. name == k.name) clients.now }
    ensures within { IfSome result (λ place. place < length clients.now) }
{
    clients.iter().position(|client| name == client.name())
}

// Where the first client stands for which bytes wait.
fn waiting_in<S: ServedSim>(clients: &[Client<S>]) -> Option<usize>
    ensures place { result ≡ position (λ k. nat_lt 0 (length k.replies.waiting)) clients.now }
    ensures within { IfSome result (λ place. place < length clients.now) }
{
    clients.iter().position(|client| client.is_waiting())
}

// The clock ticks for each of the clients, and the modem tells this.
fn tick_all<S: ServedSim>(clients: &mut Vec<Client<S>>, told: &[u8]) -> Result<(), AllocError>
    ensures { OnOk result (clients.new.items ≡ map (ticks_on told.now) clients.old.items) }
{
    for client in clients.iter_mut() {
        client.tick(told)?;
    }
    Ok(())
}
