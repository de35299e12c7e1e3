//! The bytes that wait until a connection takes them.
#![tactic(auto)]

ghost use Rattle.std.specs.Prelude.{◌≡◌, ◌+◌, ◌≤◌, ◌==◌, ℕ, List, ◌∷◌, ◌++◌, length, drop, IfOk};
ghost use Rattle.outbox.specs.Queue.{opened, room, has_room, queues, takes, clears};
ghost use Rattle.circular_buffer.specs.Buffer.{buffer};
ghost use Rattle.outbox.specs.Fronts.{IsFrontOf};
ghost use Rattle.outbox.specs.Calls.{Call, Queues, Takes, Clears, StandsFor};

use circular_buffer::HeapCircularBuffer;
use std::alloc::{AllocError, Global};
use std::marker::Model;

/// Bytes that wait to be taken, and no more of them than a capacity, in a ring of that capacity.
#[derive(Drop)]
pub struct Outbox {
    ring: HeapCircularBuffer<u8>,
}

impl Model for Outbox {
    ghost use Rattle.outbox.specs.Queue.{Queue};

    ghost Value = { Queue };

    ghost view = { λ o. record { bytes = o.ring.items; capacity = o.ring.capacity } };
}

impl Outbox {
    /// An empty outbox, with all the memory that it will ever need.
    pub fn open(alloc: Global, capacity: usize) -> Result<Self, AllocError>
        ensures { IfOk result (λ outbox. outbox ≡ opened capacity) }
    {
        let ring = HeapCircularBuffer::with_capacity(alloc, capacity)?;
        Ok(Outbox { ring })
    }

    /// How many bytes wait.
    pub fn len(&self) -> usize
        ensures { result ≡ length self.now.bytes }
    {
        self.ring.len()
    }

    /// Whether no bytes wait.
    pub fn is_empty(&self) -> bool
        ensures { result ≡ (length self.now.bytes == 0) }
    {
        self.len() == 0
    }

    /// How many more bytes may wait.
    pub fn room(&self) -> usize
        ensures room { result ≡ room self.now }
        ensures within { length self.now.bytes ≤ self.now.capacity }
    {
        self.ring.capacity() - self.ring.len()
    }

    /// Adds all of these bytes, or none where they find no room.
    pub fn queue(&mut self, bytes: &[u8]) -> bool
        ensures fits { result ≡ has_room bytes.now self.old }
        ensures queue { self.new ≡ queues bytes.now self.old }
        ensures stands { (capacity : ℕ) (calls : List Call) → StandsFor capacity calls self.old → StandsFor capacity (Queues bytes.now ∷ calls) self.new }
    {
        if bytes.len() > self.room() {
            return false;
        }
        add(&mut self.ring, bytes);
        true
    }

    /// Adds all bytes of both runs, one run behind the other, or none where they find no room.
    pub fn queue_both(&mut self, head: &[u8], rest: &[u8]) -> bool
        ensures fits { result ≡ has_room (head.now ++ rest.now) self.old }
        ensures queue { self.new ≡ queues (head.now ++ rest.now) self.old }
        ensures stands { (capacity : ℕ) (calls : List Call) → StandsFor capacity calls self.old → StandsFor capacity (Queues (head.now ++ rest.now) ∷ calls) self.new }
    {
        if head.len() + rest.len() > self.room() {
            return false;
        }
        add_both(&mut self.ring, head, rest);
        true
    }

    /// Bytes that wait, the first to go first: all of them, or those up to the end of the ring's
    /// block. There are none only where none wait.
    pub fn front(&self) -> &[u8]
        ensures { IsFrontOf result.now self.now.bytes }
    {
        let (first, wrapped) = self.ring.as_slices();
        if first.is_empty() { wrapped } else { first }
    }

    /// All the bytes that wait, in two parts, the second behind the first.
    pub fn parts(&self) -> (&[u8], &[u8])
        ensures { result.0.now ++ result.1.now ≡ self.now.bytes }
    {
        self.ring.as_slices()
    }

    /// Brings all the bytes that wait into one slice. No contract says so, since where a ring's slices
    /// part is the ring's own affair.
    pub fn straighten(&mut self)
        ensures { self.new ≡ self.old }
    {
        let _all = self.ring.make_contiguous();
    }

    /// The first so many bytes were taken, and wait no more.
    pub fn taken(&mut self, count: usize)
        requires { count ≤ length self.old.bytes }
        ensures queue { self.new ≡ takes count self.old }
        ensures stands { (capacity : ℕ) (calls : List Call) → StandsFor capacity calls self.old → StandsFor capacity (Takes count ∷ calls) self.new }
    {
        drop_front(&mut self.ring, count);
    }

    /// No bytes wait any more.
    pub fn clear(&mut self)
        ensures queue { self.new ≡ clears self.old }
        ensures stands { (capacity : ℕ) (calls : List Call) → StandsFor capacity calls self.old → StandsFor capacity (Clears ∷ calls) self.new }
    {
        self.ring.clear();
    }
}

// Adds bytes for which there is room.
fn add(ring: &mut HeapCircularBuffer<u8>, bytes: &[u8])
    requires { length ring.old.items + length bytes.now ≤ ring.old.capacity }
    ensures { ring.new ≡ buffer (ring.old.items ++ bytes.now) ring.old.capacity }
{
    let _all = ring.fill_from_slice(bytes);
}

// Adds both runs of bytes, one behind the other.
fn add_both(ring: &mut HeapCircularBuffer<u8>, head: &[u8], rest: &[u8])
    requires { length ring.old.items + (length head.now + length rest.now) ≤ ring.old.capacity }
    ensures { ring.new ≡ buffer (ring.old.items ++ (head.now ++ rest.now)) ring.old.capacity }
{
    add(ring, head);
    add(ring, rest);
}

// Drops the first so many bytes.
fn drop_front(ring: &mut HeapCircularBuffer<u8>, count: usize)
    requires { count ≤ length ring.old.items }
    ensures { ring.new ≡ buffer (drop count ring.old.items) ring.old.capacity }
{
    let left = ring.len() - count;
    ring.truncate_front(left);
}
