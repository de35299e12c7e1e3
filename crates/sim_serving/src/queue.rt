ghost use Rattle.std.specs.Prelude.{◌≡◌, ◌≤◌, ◌-◌, ◌==◌, [], ◌++◌, length, drop, vec_len, OnOk, OnErr};

use std::alloc::{AllocError, Global};
use std::marker::Model;

/// The bytes that wait until a client's socket takes them, as many as memory allows.
///
/// They stand behind `start`. Before more are added they move to the front, but only where as many
/// were taken as still wait: so each byte is moved as often as one is taken, at most.
#[derive(Drop)]
pub struct Queue {
    bytes: Vec<u8>,
    start: usize,
}

impl Model for Queue {
    ghost use Rattle.std.specs.Prelude.{ℕ, ◌≤◌, List, drop, vec_len};

    ghost Value = { List ℕ };

    ghost view = { λ queue. drop queue.start queue.bytes.items };

    ghost invariant = { λ queue. queue.start ≤ vec_len queue.bytes };
}

impl Queue {
    /// No bytes, which take no memory.
    pub fn new(alloc: Global) -> Self
        ensures { result ≡ [] }
    {
        Queue {
            bytes: Vec::new(alloc),
            start: 0,
        }
    }

    /// All the bytes that wait, the first to go first.
    pub fn front(&self) -> &[u8]
        ensures { result.now ≡ self.now }
    {
        &self.bytes[self.start..]
    }

    /// Whether no bytes wait.
    pub fn is_empty(&self) -> bool
        ensures { result ≡ (length self.now == 0) }
    {
        self.bytes.len() == self.start
    }

    /// Adds bytes behind the others.
    pub fn add(&mut self, bytes: &[u8]) -> Result<(), AllocError>
        ensures ok { OnOk result (self.new ≡ self.old ++ bytes.now) }
        ensures err { OnErr result (self.new ≡ self.old) }
    {
        if self.bytes.len() - self.start <= self.start {
            drop_front(&mut self.bytes, self.start);
            self.start = 0;
        }
        self.bytes.extend_from_slice(bytes)
    }

    /// The first so many bytes were taken, and wait no more.
    pub fn taken(&mut self, count: usize)
        requires { count ≤ length self.old }
        ensures { self.new ≡ drop count self.old }
    {
        self.start += count;
    }
}

// Drops the first so many bytes.
fn drop_front(bytes: &mut Vec<u8>, count: usize)
    requires { count ≤ vec_len bytes.old }
    ensures items { bytes.new.items ≡ drop count bytes.old.items }
    ensures len { vec_len bytes.new ≡ vec_len bytes.old - count }
{
    let left = bytes.len() - count;
    bytes.copy_within(count.., 0);
    bytes.truncate(left);
}
