ghost use Rattle.std.specs.Prelude.{◌≡◌, ◌<◌, ◌≤◌, ◌↔◌, [], Some, IsTrue, IfOk};

use kit_bytes::{Span, append};
use std::alloc::{AllocError, Global};
use std::marker::Model;

/// What happened, and which of a log's bytes went with it.
#[derive(Clone, Copy, PartialEq, Eq)]
pub struct Note<K> {
    pub kind: K,
    pub bytes: Span,
}

/// A list of what happened, each with its bytes, which grows within the room that it is made with.
/// Once a note doesn't fit, it tells nothing any more.
#[derive(Drop)]
pub struct Log<K> {
    notes: Vec<Note<K>>,
    bytes: Vec<u8>,
    tells: bool,
}

impl<K> Model for Log<K> {
    ghost use Rattle.std.specs.Prelude.{◌-◌, Some, None, All, length, map, vec_len, vec_capacity, if◌then◌else◌};
    ghost use Rattle.kit_io.specs.Record.{Logged};
    ghost use Rattle.kit_io.specs.Log.{noted, StandsWithin};

    ghost Value = { Logged K };

    ghost view = { λ l. record {
      recorded = (if l.tells then Some (map (noted l.bytes.items) l.notes.items) else None);
      room = vec_capacity l.notes - vec_len l.notes;
      bytes_room = vec_capacity l.bytes - vec_len l.bytes;
    } };

    ghost invariant = { λ l. All (StandsWithin (length l.bytes.items)) l.notes.items };
}

impl<K: Copy> Log<K> {
    ghost use Rattle.std.specs.Prelude.{length};
    ghost use Rattle.std.specs.Option.{option_map};
    ghost use Rattle.kit_io.specs.Record.{Notes, note_at};

    /// An empty log, with room for so many notes and for so many bytes in all.
    pub fn new(alloc: Global, room: usize, bytes_room: usize) -> Result<Self, AllocError>
        ensures recorded { IfOk result (λ log. log.recorded ≡ Some []) }
        ensures room { IfOk result (λ log. room ≤ log.room) }
        ensures bytes_room { IfOk result (λ log. bytes_room ≤ log.bytes_room) }
    {
        Ok(Log {
            notes: Vec::with_capacity(alloc, room)?,
            bytes: Vec::with_capacity(alloc, bytes_room)?,
            tells: true,
        })
    }

    // Whether there is room for one note more, with so many bytes.
    fn has_room(&self, count: usize) -> bool
        ensures { IsTrue result ↔ ((0 < self.now.room) × (count ≤ self.now.bytes_room)) }
    {
        self.notes.len() < self.notes.capacity()
            && count <= self.bytes.capacity() - self.bytes.len()
    }

    /// Adds a note.
    pub fn note(&mut self, kind: K, bytes: &[u8])
        ensures { Notes self.old (record { kind = kind; bytes = bytes.now }) self.new }
    {
        if !self.has_room(bytes.len()) {
            self.tells = false;
            return;
        }
        let start = self.bytes.len();
        append(&mut self.bytes, bytes);
        let end = self.bytes.len();
        self.notes.push_reserved(Note {
            kind,
            bytes: Span { start, end },
        });
    }

    /// How many notes there are, where recorded.
    pub fn len(&self) -> Option<usize>
        ensures { result ≡ option_map length self.now.recorded }
    {
        self.tells.then_some(self.notes.len())
    }

    /// What the note at a place says happened, and its bytes, where recorded.
    pub fn at(&self, index: usize) -> Option<(K, &[u8])>
        ensures { option_map (λ note. record { kind = note.0; bytes = note.1.now }) result ≡ note_at self.now.recorded index }
    {
        if !self.tells {
            return None;
        }
        let note = self.notes.get(index)?;
        Some((note.kind, &self.bytes[note.bytes.start..note.bytes.end]))
    }
}
