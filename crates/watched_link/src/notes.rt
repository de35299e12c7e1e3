ghost use Rattle.std.specs.Prelude.{◌≡◌, ◌∷◌, [], Some, IfOk, OnOk, IsTrue, ◌↔◌};
ghost use Rattle.std.specs.Option.{option_map};

use crate::LinkNote;
use kit_io::Log;
use link_io::Made;
use std::alloc::{AllocError, Global};
use std::marker::Model;

/// How many notes are kept.
pub const NOTES_ROOM: usize = 65_536;

/// How many bytes are kept with them, in all.
pub const BYTES_ROOM: usize = 4_194_304;

/// The notes of all that was done on a link, once they are kept and as long as they fit. Behind the
/// first that doesn't fit nothing more is noted.
#[derive(Drop)]
pub struct Notes {
    log: Log<LinkNote>,
    /// All that was done is noted.
    whole: bool,
    /// For how many notes more there is room.
    room: usize,
    bytes_room: usize,
}

impl Model for Notes {
    ghost use Rattle.std.specs.Prelude.{◌≤◌, None, if◌then◌else◌};
    ghost use Rattle.kit_io.specs.Record.{Logged};
    ghost use Rattle.watched_link.specs.declared.note.LinkNote.{LinkNote};

    ghost Value = { Logged LinkNote };

    ghost view = { λ n. record { recorded = (if n.whole then n.log.recorded else None); room = n.room; bytes_room = n.bytes_room } };

    ghost invariant = { λ n. (n.room ≤ n.log.room) × (n.bytes_room ≤ n.log.bytes_room) };
}

impl Notes {
    ghost use Rattle.std.specs.Prelude.{length, None};
    ghost use Rattle.kit_io.specs.Record.{Notes as NotesOne, note_at};
    ghost use Rattle.kit_io.specs.Growth.{Grows};
    ghost use Rattle.link_io.specs.Made.{call_as};
    ghost use Rattle.watched_link.specs.Notes.{Called, Said, events_recorded};

    /// Nothing was done yet, and nothing will be noted.
    pub(crate) fn none(alloc: Global) -> Result<Self, AllocError>
        ensures { IfOk result (λ notes. notes ≡ record { recorded = Some []; room = 0; bytes_room = 0 }) }
    {
        Ok(Notes {
            log: Log::new(alloc, 0, 0)?,
            whole: true,
            room: 0,
            bytes_room: 0,
        })
    }

    /// Takes the room for what will be noted, if nothing was done yet.
    pub(crate) fn keep(&mut self, alloc: Global) -> Result<(), AllocError>
        ensures recorded { self.new.recorded ≡ self.old.recorded }
        ensures room { OnOk result (self.old.recorded ≡ Some [] → self.new.room ≡ NOTES_ROOM) }
        ensures bytes_room { OnOk result (self.old.recorded ≡ Some [] → self.new.bytes_room ≡ BYTES_ROOM) }
    {
        if self.is_unused() {
            self.log = Log::new(alloc, NOTES_ROOM, BYTES_ROOM)?;
            self.room = NOTES_ROOM;
            self.bytes_room = BYTES_ROOM;
        }
        Ok(())
    }

    // Whether nothing was done yet.
    fn is_unused(&self) -> bool
        ensures { IsTrue result ↔ (self.now.recorded ≡ Some []) }
    {
        if !self.whole {
            return false;
        }
        self.log.len() == Some(0)
    }

    /// Adds a note.
    pub(crate) fn note(&mut self, kind: LinkNote, bytes: &[u8])
        ensures { NotesOne self.old (record { kind = kind; bytes = bytes.now }) self.new }
    {
        if self.room == 0 || bytes.len() > self.bytes_room {
            self.whole = false;
            return;
        }
        self.log.note(kind, bytes);
        self.room -= 1;
        self.bytes_room -= bytes.len();
    }

    /// Notes a call.
    #[tactic(auto, using(kit_io::proofs::Growth::growing))]
    pub(crate) fn call(&mut self, made: Made, bytes: &[u8])
        ensures { Grows (events_recorded self.old.recorded) (Called (call_as made bytes.now) ∷ []) (events_recorded self.new.recorded) }
    {
        self.note(LinkNote::Called(made), bytes);
    }

    /// Notes what the system says of it.
    #[tactic(auto, using(kit_io::proofs::Growth::growing))]
    pub(crate) fn said(&mut self, words: &[u8])
        ensures { Grows (events_recorded self.old.recorded) (Said words.now ∷ []) (events_recorded self.new.recorded) }
    {
        self.note(LinkNote::Said, words);
    }

    /// Whether they tell of all that was done.
    pub fn is_whole(&self) -> bool
        ensures { ¬ (self.now.recorded ≡ None) → IsTrue result }
    {
        self.whole
    }

    /// How many there are.
    pub fn len(&self) -> usize
        ensures { ¬ (self.now.recorded ≡ None) → Some result ≡ option_map length self.now.recorded }
    {
        self.log.len().unwrap_or(0)
    }

    /// What the note at a place says happened, and its bytes.
    pub fn at(&self, index: usize) -> Option<(LinkNote, &[u8])>
        ensures { ¬ (self.now.recorded ≡ None) → option_map (λ note. record { kind = note.0; bytes = note.1.now }) result ≡ note_at self.now.recorded index }
    {
        self.log.at(index)
    }
}
