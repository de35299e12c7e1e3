ghost use Rattle.std.specs.Prelude.{◌≡◌, ◌≤◌, ◌&&◌, ◌++◌, true, not, length};
ghost use Rattle.framing.specs.Cutting.{cut};
ghost use Rattle.framing.specs.Framing.{IsPartial, is_invalid};
ghost use Rattle.outbox.specs.Queue.{has_room};
ghost use Rattle.connections.specs.Table.{joined, puts, took, has_waiting};
ghost use Rattle.connections.specs.Hearing.{hearing_of, goes_on, heard, hears_all, IsLeft};
ghost use Rattle.outbox.specs.Fronts.{IsFrontOf};

use crate::hears::Hears;
use crate::place::Place;
use crate::renews::Renews;
use framing::{Cutter, Framing, LONGEST_PIECE};
use kit_bytes::{ConnId, Cut};
use outbox::Outbox;
use std::marker::Model;

/// A connection that is there.
#[derive(Drop)]
pub struct Connection<F: Framing, T> {
    name: ConnId,
    place: Place<F, T>,
}

impl<F: Framing, T> Model for Connection<F, T> {
    ghost use Rattle.framing.specs.Framing.{IsPartial};
    ghost use Rattle.connections.specs.Table as table;

    ghost Value = { table.Connection T };

    ghost view = { λ k. record { name = k.name; client = k.place.client; rest = k.place.stream.rest; outbox = k.place.outbox } };

    ghost invariant = { λ k. IsPartial F.size k.place.stream.rest };
}

impl<F: Framing, T> Connection<F, T> {
    ghost use Rattle.std.specs.Borrow.{sem};
    ghost use Rattle.connections.specs.Lends.{lends_client};

    pub fn name(&self) -> ConnId
        ensures { result ≡ self.now.name }
    {
        self.name
    }

    /// What the protocol keeps of its client.
    pub fn client(&self) -> &T
        ensures { result.now ≡ self.now.client }
    {
        &self.place.client
    }

    /// What the protocol keeps of its client, to be changed.
    pub fn client_mut(&mut self) -> &mut T
        ensures* writes_back { sem 𝓛 (lends_client F.row T.row F.Framing self.entry result) }
        ensures client { result.now ≡ self.old.client }
    {
        &mut self.place.client
    }

    /// Hears the next piece of its stream, and says whether the connection goes on: all that was due
    /// to its client found room, and the stream didn't go bad.
    pub fn hear<S: Hears<F, T>>(&mut self, piece: &[u8], beside: &mut S) -> bool
        requires { length piece.now ≤ LONGEST_PIECE }
        ensures goes_on { result ≡ goes_on F.size (hearing_of F.size S.hears piece.now self.old beside.old) piece.now self.old }
        ensures heard { result ≡ true → self.new ≡ heard F.size (hearing_of F.size S.hears piece.now self.old beside.old) piece.now self.old }
        ensures name { self.new.name ≡ self.old.name }
        ensures outbox { self.new.outbox ≡ (hearing_of F.size S.hears piece.now self.old beside.old).outbox }
        ensures beside { beside.new ≡ (hearing_of F.size S.hears piece.now self.old beside.old).beside }
        ensures capacity { self.new.outbox.capacity ≡ self.old.outbox.capacity }
    {
        self.place.stream.push(piece);
        let goes_on = hear_all(
            &mut self.place.stream,
            self.name,
            &mut self.place.client,
            &mut self.place.outbox,
            beside,
        );
        if !goes_on {
            self.place.stream.restart();
        }
        goes_on
    }

    /// Puts both runs of bytes into its outbox, and says whether they find room. Where they don't,
    /// nothing changes.
    pub fn put(&mut self, head: &[u8], rest: &[u8]) -> bool
        ensures room { result ≡ has_room (head.now ++ rest.now) self.old.outbox }
        ensures put { self.new ≡ puts (head.now ++ rest.now) self.old }
    {
        self.place.outbox.queue_both(head, rest)
    }

    /// Its socket took the first so many bytes.
    pub fn take(&mut self, count: usize)
        requires { count ≤ length self.old.outbox.bytes }
        ensures { self.new ≡ took count self.old }
    {
        self.place.outbox.taken(count);
    }

    /// The first of the bytes that wait for it; none only where none wait.
    pub fn queued(&self) -> &[u8]
        ensures { IsFrontOf result.now self.now.outbox.bytes }
    {
        self.place.outbox.front()
    }

    /// All the bytes that wait for it, in two parts.
    pub fn parts(&self) -> (&[u8], &[u8])
        ensures { result.0.now ++ result.1.now ≡ self.now.outbox.bytes }
    {
        self.place.outbox.parts()
    }

    /// Whether bytes wait for it.
    pub fn is_waiting(&self) -> bool
        ensures { result ≡ has_waiting self.now }
    {
        !self.place.outbox.is_empty()
    }

    /// Its place, with what waited for it.
    pub fn into_place(self) -> Place<F, T>
        ensures { result.outbox ≡ self.outbox }
    {
        self.place
    }
}

impl<F: Framing, T: Renews + Drop> Connection<F, T> {
    /// A connection that has said nothing, of a client that has just joined, in this place.
    pub fn begin(mut place: Place<F, T>, name: ConnId) -> Self
        ensures { result ≡ joined name T.fresh place.outbox.capacity }
    {
        place.renew();
        Connection { name, place }
    }
}

// Has the client's whole messages heard, and says whether the connection goes on.
fn hear_all<F: Framing, T, S: Hears<F, T>>(
    stream: &mut Cutter<F>,
    name: ConnId,
    client: &mut T,
    outbox: &mut Outbox,
    beside: &mut S,
) -> bool
    ensures left { IsLeft F.size (hears_all S.hears name (cut F.size stream.old.rest).messages client.old outbox.old beside.old) (cut F.size stream.old.rest).rest result client.new outbox.new beside.new }
    ensures rest { result ≡ true → (stream.new.rest ≡ (cut F.size stream.old.rest).rest) × IsPartial F.size stream.new.rest }
    ensures capacity { outbox.new.capacity ≡ outbox.old.capacity }
{
    loop {
        match stream.next() {
            Cut::Whole(span) => {
                if !beside.hear(name, stream.bytes(span), client, outbox) {
                    return false;
                }
            }
            Cut::NeedMore => return true,
            Cut::Bad(_) => return false,
        }
    }
}
