ghost use Rattle.std.specs.Prelude.{◌≡◌, ◌<◌, ◌≤◌, ◌==◌, ◌++◌, [], is_some, nat_lt, length, position, get_or, vec_len, vec_capacity, Some, IfOk, IfSome, IsNone};
ghost use Rattle.std.specs.List.{AllByRecursion};
ghost use Rattle.connections.specs.Table.{Connection as TableConnection, IsRegular, AreRising, opened, connection_in, joins, leaves, tells, finds_room, client_takes, asked, first_dropped, queue_of, has_waiting, first_waiting};
ghost use Rattle.connections.specs.Places.{drops_at};
ghost use Rattle.connections.specs.Hearing.{brings};
ghost use Rattle.outbox.specs.Fronts.{IsFrontOf};

use crate::connection::Connection;
use crate::dropped::{self, Dropped};
use crate::hears::Hears;
use crate::place::Place;
use crate::renews::Renews;
use framing::{Framing, LONGEST_PIECE};
use kit_bytes::ConnId;
use std::alloc::{AllocError, Global};
use std::marker::Model;

/// The connections of a proxy's clients, in order of joining, and those that were dropped.
///
/// All memory that they and their clients will ever need is taken at the opening, a place for each
/// connection. A place is free again once its connection left, or was dropped and asked for.
#[derive(Drop)]
pub struct Connections<F: Framing, T> {
    present: Vec<Connection<F, T>>,
    dropped: Vec<Dropped<F, T>>,
    free: Vec<Place<F, T>>,
    // the greatest name of a connection so far
    greatest: u64,
    // how many may be there
    limit: usize,
    // how many bytes may wait for each
    room: usize,
}

impl<F: Framing, T> Model for Connections<F, T> {
    ghost use Rattle.std.specs.Prelude.{◌≡◌, ◌+◌, ◌≤◌, vec_len, vec_capacity};
    ghost use Rattle.std.specs.List.{AllByRecursion};
    ghost use Rattle.connections.specs.Table.{Table, IsRegular};
    ghost use Rattle.connections.specs.Places.{places_in, HaveRoom};

    ghost Value = { Table T };

    ghost view = { λ c. record { present = c.present.items; dropped = c.dropped.items; greatest = c.greatest; limit = c.limit; room = c.room } };

    ghost invariant = { λ c. record {
      regular : IsRegular (record { present = c.present.items; dropped = c.dropped.items; greatest = c.greatest; limit = c.limit; room = c.room });
      places : record {
        left : HaveRoom c.room c.dropped.items;
        free : AllByRecursion (λ p. p.outbox.capacity ≡ c.room) c.free.items;
        count : vec_len c.present + places_in c.dropped.items + vec_len c.free ≡ c.limit;
        few : vec_len c.present + vec_len c.dropped ≤ c.limit + 1;
        present_room : c.limit ≤ vec_capacity c.present;
        dropped_room : c.limit + 1 ≤ vec_capacity c.dropped;
        free_room : c.limit ≤ vec_capacity c.free;
      };
    } };
}

impl<F: Framing, T: Renews + Drop> Connections<F, T> {
    /// Nobody is there yet. At most so many connections may be there, and so many bytes may wait for
    /// each.
    pub fn open(alloc: Global, limit: u16, room: usize) -> Result<Self, AllocError>
        ensures { IfOk result (λ table. table ≡ opened limit room) }
    {
        let limit = usize::from(limit);
        Ok(Connections {
            present: Vec::with_capacity(alloc, limit)?,
            dropped: Vec::with_capacity(alloc, limit + 1)?,
            free: open_places(alloc, limit, room)?,
            greatest: 0,
            limit,
            room,
        })
    }

    /// A client connected: it is let in behind the others, or dropped where as many as may be are
    /// there. Says whether it was let in.
    pub fn join(&mut self, name: ConnId) -> bool
        requires newer { self.old.greatest < name }
        requires hung_up { self.old.dropped ≡ [] }
        ensures joined { self.new ≡ joins name T.fresh self.old }
        ensures let_in { result ≡ nat_lt (length self.old.present) self.old.limit }
        ensures regular { IsRegular self.old }
    {
        self.greatest = name;
        let Some(place) = self.free.pop() else {
            self.dropped.push_reserved(Dropped::refused(name));
            return false;
        };
        self.present.push_reserved(Connection::begin(place, name));
        true
    }
}

impl<F: Framing, T: Drop> Connections<F, T> {
    /// The connection of this name is gone, and says whether it was there.
    pub fn leave(&mut self, name: ConnId) -> bool
        ensures left { self.new ≡ leaves name self.old }
        ensures there { result ≡ is_some (connection_in name self.old.present) }
        ensures regular { IsRegular self.old }
    {
        let Some(place) = self.find(name) else {
            return false;
        };
        let connection = self.present.remove(place);
        self.free.push_reserved(connection.into_place());
        true
    }

    /// Puts both runs of bytes into the outbox of the connection of this name, or drops it where they
    /// find no room. Says whether it wasn't dropped.
    pub fn tell(&mut self, name: ConnId, head: &[u8], rest: &[u8]) -> bool
        ensures told { self.new ≡ tells name (head.now ++ rest.now) self.old }
        ensures stays { result ≡ finds_room (head.now ++ rest.now) (connection_in name self.old.present) }
        ensures regular { IsRegular self.old }
    {
        match self.find(name) {
            Some(place) => self.tell_at(place, name, head, rest),
            None => true,
        }
    }

    /// The same for the connection of this name where it is known to stand at this place.
    pub fn tell_at(&mut self, place: usize, name: ConnId, head: &[u8], rest: &[u8]) -> bool
        requires { Some place ≡ position (λ k. name == k.name) self.old.present }
        ensures told { self.new ≡ tells name (head.now ++ rest.now) self.old }
        ensures stays { result ≡ finds_room (head.now ++ rest.now) (connection_in name self.old.present) }
    {
        let connection = &mut self.present[place];
        if connection.put(head, rest) {
            return true;
        }
        self.drop_at(place);
        false
    }

    /// The protocol hears the next piece of the stream of the connection of this name, which is
    /// dropped where what is due to its client finds no room or the stream goes bad. Says whether it
    /// wasn't dropped.
    pub fn bring<S: Hears<F, T>>(&mut self, name: ConnId, piece: &[u8], beside: &mut S) -> bool
        requires { length piece.now ≤ LONGEST_PIECE }
        ensures table { self.new ≡ (brings F.size S.hears name piece.now self.old beside.old).table }
        ensures beside { beside.new ≡ (brings F.size S.hears name piece.now self.old beside.old).beside }
        ensures stays { result ≡ (brings F.size S.hears name piece.now self.old beside.old).goes_on }
        ensures regular { IsRegular self.old }
    {
        let Some(place) = self.find(name) else {
            return true;
        };
        let connection = &mut self.present[place];
        if connection.hear(piece, beside) {
            return true;
        }
        self.drop_at(place);
        false
    }

    // The connection of this place is dropped.
    fn drop_at(&mut self, place: usize)
        requires { place < length self.old.present }
        ensures { (k : TableConnection T) → k ≡ get_or self.old.present place k → self.new ≡ drops_at place k self.old }
    {
        let connection = self.present.remove(place);
        let name = connection.name();
        self.dropped
            .push_reserved(Dropped::new(name, connection.into_place()));
    }

    /// The socket of the connection of this name took the first so many of the bytes that waited for
    /// it.
    pub fn take(&mut self, name: ConnId, count: usize)
        requires { count ≤ length (queue_of name self.old) }
        ensures { self.new ≡ client_takes name count self.old }
    {
        if let Some(place) = self.find(name) {
            let connection = &mut self.present[place];
            connection.take(count);
        }
    }

    /// The next connection that was dropped, each once.
    pub fn next_dropped(&mut self) -> Option<ConnId>
        ensures next { result ≡ first_dropped self.old.dropped }
        ensures asked { self.new ≡ asked self.old }
        ensures hung_up { IsNone result → self.new.dropped ≡ [] }
    {
        if self.dropped.is_empty() {
            return None;
        }
        let dropped = self.dropped.remove(0);
        let name = dropped.name();
        if let Some(place) = dropped.into_place() {
            self.free.push_reserved(place);
        }
        Some(name)
    }
}

impl<F: Framing, T> Connections<F, T> {
    ghost use Rattle.std.specs.Borrow.{sem};
    ghost use Rattle.connections.specs.Lends.{lends_client_at};

    /// Where the connection of this name stands in the order of joining.
    pub fn find(&self, name: ConnId) -> Option<usize>
        ensures place { result ≡ position (λ k. name == k.name) self.now.present }
        ensures regular { IsRegular self.now }
    {
        index_of(&self.present, name)
    }

    /// The first of the bytes that wait for a connection that is there, or that was dropped and wasn't
    /// asked for yet; none only where none wait, and for any other name.
    pub fn queued(&self, name: ConnId) -> &[u8]
        ensures { IsFrontOf result.now (queue_of name self.now) }
    {
        match index_of(&self.present, name) {
            Some(place) => {
                let connection = &self.present[place];
                connection.queued()
            }
            None => dropped::queued(&self.dropped, name),
        }
    }

    /// All the bytes that wait for a connection that is there, or that was dropped and wasn't asked for
    /// yet, in two parts; none for any other name.
    pub fn parts(&self, name: ConnId) -> (&[u8], &[u8])
        ensures { result.0.now ++ result.1.now ≡ queue_of name self.now }
    {
        match index_of(&self.present, name) {
            Some(place) => {
                let connection = &self.present[place];
                connection.parts()
            }
            None => dropped::parts(&self.dropped, name),
        }
    }

    /// How many connections are there.
    pub fn present(&self) -> usize
        ensures count { result ≡ length self.now.present }
        ensures few { result ≤ self.now.limit }
    {
        self.present.len()
    }

    /// The name of the connection of this place in the order of joining.
    pub fn name_at(&self, place: usize) -> ConnId
        requires { place < length self.now.present }
        ensures name { (k : TableConnection T) → k ≡ get_or self.now.present place k → result ≡ k.name }
        ensures regular { IsRegular self.now }
    {
        let connection = &self.present[place];
        connection.name()
    }

    /// What the protocol keeps of the client of this place.
    pub fn client_at(&self, place: usize) -> &T
        requires { place < length self.now.present }
        ensures { (k : TableConnection T) → k ≡ get_or self.now.present place k → result.now ≡ k.client }
    {
        let connection = &self.present[place];
        connection.client()
    }

    /// What the protocol keeps of the client of this place, to be changed.
    pub fn client_mut(&mut self, place: usize) -> &mut T
        requires { place < length self.old.present }
        ensures* writes_back { sem 𝓛 (lends_client_at F.row T.row F.Framing self.entry place result) }
        ensures client { (k : TableConnection T) → k ≡ get_or self.old.present place k → result.now ≡ k.client }
    {
        let connection = &mut self.present[place];
        connection.client_mut()
    }

    /// The place of the first connection, from this place on, for which bytes wait.
    pub fn waiting_from(&self, from: usize) -> Option<usize>
        requires { from ≤ length self.now.present }
        ensures place { result ≡ first_waiting from self.now.present }
        ensures within { IfSome result (λ place. (from ≤ place) × (place < length self.now.present)) }
        ensures regular { IsRegular self.now }
    {
        match waiting_in(&self.present[from..]) {
            Some(at) => Some(from + at),
            None => None,
        }
    }

    /// The greatest name of a connection so far.
    pub fn greatest(&self) -> u64
        ensures { result ≡ self.now.greatest }
    {
        self.greatest
    }
}

// So many places, each with the room for so many bytes to wait.
fn open_places<F: Framing, T: Renews + Drop>(
    alloc: Global,
    limit: usize,
    room: usize,
) -> Result<Vec<Place<F, T>>, AllocError>
    ensures rooms { IfOk result (λ places. AllByRecursion (λ p. p.outbox.capacity ≡ room) places.items) }
    ensures count { IfOk result (λ places. vec_len places ≡ limit) }
    ensures capacity { IfOk result (λ places. limit ≤ vec_capacity places) }
{
    let mut places = Vec::with_capacity(alloc, limit)?;
    while places.len() < limit {
        places.push_reserved(Place::open(alloc, room)?);
    }
    Ok(places)
}

// Where the connection of this name stands.
fn index_of<F: Framing, T>(connections: &[Connection<F, T>], name: ConnId) -> Option<usize>
    requires { AreRising connections.now }
    ensures { result ≡ position (λ k. name == k.name) connections.now }
{
    if let Some(place) = likely_index(connections, name) {
        return Some(place);
    }
    let place = connections.partition_point(|connection| connection.name() < name);
    if place == connections.len() {
        return None;
    }
    let connection = &connections[place];
    if name == connection.name() {
        Some(place)
    } else {
        None
    }
}

// Its place if everybody is still there who joined from the first on to it.
fn likely_index<F: Framing, T>(connections: &[Connection<F, T>], name: ConnId) -> Option<usize>
    requires { AreRising connections.now }
    ensures { IfSome result (λ place. Some place ≡ position (λ k. name == k.name) connections.now) }
{
    let first = connections.first()?;
    let place = name.checked_sub(first.name())? as usize;
    if place < connections.len() {
        let connection = &connections[place];
        if name == connection.name() {
            return Some(place);
        }
    }
    None
}

// Where the first connection stands for which bytes wait.
fn waiting_in<F: Framing, T>(connections: &[Connection<F, T>]) -> Option<usize>
    ensures place { result ≡ position has_waiting connections.now }
    ensures within { IfSome result (λ at. at < length connections.now) }
{
    connections
        .iter()
        .position(|connection| connection.is_waiting())
}
