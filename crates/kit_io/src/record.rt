ghost use Rattle.std.specs.Prelude.{◌≡◌, ◌≤◌, [], Some, IfOk};
ghost use Rattle.std.specs.Option.{option_copied};

use std::alloc::{AllocError, Global};
use std::marker::Model;

/// A list that grows within the room that it is made with. Once something doesn't fit, it tells
/// nothing any more.
#[derive(Drop)]
pub struct Record<T> {
    entries: Vec<T>,
    tells: bool,
}

impl<T> Model for Record<T> {
    ghost use Rattle.std.specs.Prelude.{◌-◌, Some, None, vec_len, vec_capacity, if◌then◌else◌};
    ghost use Rattle.kit_io.specs.Record.{Recorded};

    ghost Value = { Recorded T };

    ghost view = { λ r. record { recorded = (if r.tells then Some r.entries.items else None); room = vec_capacity r.entries - vec_len r.entries } };
}

impl<T> Record<T> {
    /// An empty list, with room for so many entries.
    pub fn new(alloc: Global, room: usize) -> Result<Self, AllocError>
        ensures recorded { IfOk result (λ r. r.recorded ≡ Some []) }
        ensures room { IfOk result (λ r. room ≤ r.room) }
    {
        Ok(Record {
            entries: Vec::with_capacity(alloc, room)?,
            tells: true,
        })
    }

    /// The entries, where recorded.
    pub fn recorded(&self) -> Option<&[T]>
        ensures { self.now.recorded ≡ option_copied result }
    {
        if self.tells {
            Some(&self.entries)
        } else {
            None
        }
    }
}

impl<T: Copy> Record<T> {
    ghost use Rattle.kit_io.specs.Record.{Records};

    /// Adds some entries.
    pub fn extend(&mut self, entries: &[T])
        ensures { Records self.old entries.now self.new }
    {
        let room = self.entries.capacity() - self.entries.len();
        self.tells = self.tells
            && entries.len() <= room
            && self.entries.extend_from_slice(entries).is_ok();
    }
}
