ghost use Rattle.std.specs.Prelude.{◌≡◌, ◌+◌, ◌<◌, ◌≤◌, [], ◌++◌, List, ℕ, length, drop, slice_range, vec_len, vec_capacity, IfOk};
ghost use Rattle.framing.specs.Framing.{AreBytes, IsPartial, IsWithin};

use crate::{Framing, Size};
use kit_bytes::{Cut, Span, append};
use std::alloc::{AllocError, Global};
use std::marker::{Model, PhantomData};

/// How many bytes a piece of a stream has at most.
pub const LONGEST_PIECE: usize = 16_384;

/// Cuts a stream that comes in pieces into its messages.
#[derive(Drop)]
pub struct Cutter<F: Framing> {
    buffer: Vec<u8>,
    start: usize,
    place: u64,
    framing: PhantomData<F>,
}

impl<F: Framing> Model for Cutter<F> {
    ghost use Rattle.std.specs.Prelude.{◌+◌, ◌≤◌, take, drop, vec_len, vec_capacity};
    ghost use Rattle.framing.specs.Reading.{Reading};

    ghost Value = { Reading };

    ghost view = { λ c. record { place = c.place; handed = take c.start c.buffer.items; rest = drop c.start c.buffer.items } };

    ghost invariant = { λ c. (c.start ≤ vec_len c.buffer) × (F.LONGEST + 16384 ≤ vec_capacity c.buffer) };
}

impl<F: Framing> Cutter<F> {
    ghost use Rattle.framing.specs.Reading.{Finds, FindsIn, Gives, StandsFor};

    /// A cutter at the start of a stream, with the room that it will ever need.
    pub fn open(alloc: Global) -> Result<Self, AllocError>
        ensures { IfOk result (λ cutter. cutter ≡ record { place = 0; handed = []; rest = [] }) }
    {
        Ok(Cutter {
            buffer: Vec::with_capacity(alloc, F::LONGEST as usize + LONGEST_PIECE)?,
            start: 0,
            place: 0,
            framing: PhantomData,
        })
    }

    /// Adds the next piece of the stream.
    pub fn push(&mut self, piece: &[u8])
        requires partial { IsPartial F.size self.old.rest }
        requires short { length piece.now ≤ LONGEST_PIECE }
        ensures pushed { self.new ≡ record { place = self.old.place; handed = []; rest = self.old.rest ++ piece.now } }
        ensures stands { (stream : List ℕ) (given : List (List ℕ)) →
            StandsFor F.size self.old stream given → StandsFor F.size self.new (stream ++ piece.now) given }
    {
        drop_front(&mut self.buffer, self.start);
        self.start = 0;
        append(&mut self.buffer, piece);
    }

    /// Finds the next message.
    pub fn next(&mut self) -> Cut
        ensures next { Finds F.size self.old self.new result }
        ensures stands { (stream : List ℕ) (given : List (List ℕ)) →
            StandsFor F.size self.old stream given → FindsIn F.size stream given self.new result }

        // What waits for more is shorter than a message may be.
        ensures bounded { result ≡ Cut.NeedMore → length self.new.rest < F.LONGEST }
    {
        let rest = self.rest();
        match F::size(rest) {
            Size::Invalid => Cut::Bad(self.place),
            Size::Known(count) if count <= rest.len() => Cut::Whole(self.give(count)),
            Size::Known(_) | Size::Unknown => Cut::NeedMore,
        }
    }

    // The bytes behind those that were given.
    fn rest(&self) -> &[u8]
        ensures rest { result.now ≡ self.now.rest }
        ensures bytes { AreBytes result.now }
    {
        tail(&self.buffer, self.start)
    }

    // Gives so many bytes of the rest.
    fn give(&mut self, count: usize) -> Span
        requires { count ≤ length self.old.rest }
        ensures { Gives self.old self.new count result }
    {
        let span = Span {
            start: self.start,
            end: self.start + count,
        };
        self.start = span.end;
        self.place = self.place.saturating_add(count as u64);
        span
    }

    /// The bytes of a message that was given since the last push.
    pub fn bytes(&self, span: Span) -> &[u8]
        requires ordered { span.start ≤ span.end }
        requires given { span.end ≤ length self.now.handed }
        ensures { result.now ≡ slice_range self.now.handed span.start span.end }
    {
        &self.buffer[span.start..span.end]
    }

    /// Forgets the rest, and begins a new stream.
    pub fn restart(&mut self)
        ensures { self.new ≡ record { place = 0; handed = []; rest = [] } }
    {
        self.buffer.clear();
        self.start = 0;
        self.place = 0;
    }
}

// What stands behind the first so many bytes.
fn tail(buffer: &[u8], count: usize) -> &[u8]
    requires { count ≤ length buffer.now }
    ensures rest { result.now ≡ drop count buffer.now }
    ensures bytes { AreBytes result.now }
{
    &buffer[count..]
}

// Drops the first so many bytes.
fn drop_front(buffer: &mut Vec<u8>, count: usize)
    requires { count ≤ vec_len buffer.old }
    ensures items { buffer.new.items ≡ drop count buffer.old.items }
    ensures capacity { vec_capacity buffer.new ≡ vec_capacity buffer.old }
    ensures bytes { AreBytes buffer.new.items }
{
    // nothing is moved where all stays, however much that is
    if count == 0 {
        return;
    }
    let left = buffer.len() - count;
    buffer.copy_within(count.., 0);
    buffer.truncate(left);
}
