ghost use Rattle.std.specs.Prelude.{◌≡◌, ◌≤◌, ◌∷◌, [], Some, true, length, is_ok, IfOk};
ghost use Rattle.kit_io.specs.Causes.{HasCause};
ghost use Rattle.kit_io.specs.Counts.{one_more};
ghost use Rattle.kit_io.specs.Growth.{Grows};
ghost use Rattle.link_io.specs.Calls.{Opened, Paired, Closed, take_call, Sends, EndsForGood};
ghost use Rattle.link_io.specs.Made.{call_as};
ghost use Rattle.link_io.specs.Target.{address_of, IsWithin};
ghost use Rattle.watched_link.specs.Notes.{Called, calls_recorded, events_recorded};
ghost use Rattle.watched_link.specs.Calls.{NotesCall, NotesFailure, sent_call};

use crate::{Complain, Notes, Watch};
use kit_io::{Failed, system_words};
use link_io::{Link, Made, TAKE_ROOM, Taken, Target};
use std::alloc::{AllocError, Global};
use std::io;

/// A link that leads where another does. Each call is made on that one, and noted once it is watched.
///
/// It tells of its calls by its notes: nothing, unless it is watched before the first of them.
#[derive(Drop)]
pub struct Watched<L> {
    alloc: Global,
    link: L,
    notes: Notes,
}

impl<L: Complain + Drop> Watched<L> {
    /// A link that isn't watched, and leads where this one does.
    pub fn new(alloc: Global, link: L) -> Result<Self, AllocError>
        ensures link { IfOk result (λ watched. watched.link ≡ link) }
        ensures notes { IfOk result (λ watched. watched.notes ≡ record { recorded = Some []; room = 0; bytes_room = 0 }) }
    {
        let notes = Notes::none(alloc)?;
        Ok(Watched { alloc, link, notes })
    }
}

impl<L: Complain> Watched<L> {
    /// The link on which the calls are made.
    pub fn link(&self) -> &L
        ensures { result.now ≡ self.now.link }
    {
        &self.link
    }

    // Notes a call that failed, and what the system says of it.
    #[tactic(auto, using(kit_io::proofs::Growth::growing))]
    fn note_failed(&mut self, made: Made, bytes: &[u8])
        ensures notes { NotesFailure self.old.notes.recorded (call_as made bytes.now) self.new.notes.recorded }
        ensures link { self.new.link ≡ self.old.link }
    {
        let words = words_of(self.alloc, self.link.complaint());
        self.notes.call(made, bytes);
        self.notes.said(words.as_bytes());
    }
}

// What the system says, or nothing where it says nothing.
fn words_of(alloc: Global, complaint: Option<io::Error>) -> String {
    match complaint {
        Some(error) => system_words(alloc, error),
        None => String::new(alloc),
    }
}

// How an opening of this target is noted, and with which bytes.
fn opening(target: &Target, ok: bool) -> (Made, &[u8])
    ensures { call_as result.0 result.1.now ≡ Opened (address_of target.now) ok }
{
    match target {
        Target::Socket(path) => (Made::Opened { ok }, path.as_str().as_bytes()),
        Target::Bridge(path) => (Made::OpenedBridge { ok }, path.as_str().as_bytes()),
    }
}

impl<L: Complain> Link for Watched<L> {
    ghost calls = { λ w. calls_recorded w.notes.recorded };

    ghost ended = { λ w. L.ended w.link };

    ghost open_faults = { λ w. L.open_faults w.link };

    ghost faults = { λ w. L.faults w.link };

    ghost made = { λ w. L.made w.link };

    fn made(&self) -> u64 {
        self.link.made()
    }

    fn open(&mut self, target: &Target) -> Result<(), Failed>
        ensures calls { Grows (calls_recorded self.old.notes.recorded) (Opened (address_of target.now) (is_ok result) ∷ []) (calls_recorded self.new.notes.recorded) }
        ensures ended { L.ended self.old.link ≡ true → L.ended self.new.link ≡ true }
        ensures cause { HasCause (L.open_faults self.old.link) (L.open_faults self.new.link) result }
        ensures later { L.faults self.old.link ≤ L.faults self.new.link }
        ensures made { L.made self.new.link ≡ one_more (L.made self.old.link) }
        ensures notes { NotesCall self.old.notes.recorded (Opened (address_of target.now) (is_ok result)) result self.new.notes.recorded }
        ensures passes { Grows (L.calls self.old.link) (Opened (address_of target.now) (is_ok result) ∷ []) (L.calls self.new.link) }
    {
        match self.link.open(target) {
            Ok(()) => {
                let (made, path) = opening(target, true);
                self.notes.call(made, path);
                Ok(())
            }
            Err(failed) => {
                let (made, path) = opening(target, false);
                self.note_failed(made, path);
                Err(failed)
            }
        }
    }

    fn pair(&mut self) -> Result<(), Failed>
        ensures calls { Grows (calls_recorded self.old.notes.recorded) (Paired (is_ok result) ∷ []) (calls_recorded self.new.notes.recorded) }
        ensures ended { L.ended self.old.link ≡ true → L.ended self.new.link ≡ true }
        ensures cause { HasCause (L.faults self.old.link) (L.faults self.new.link) result }
        ensures later { L.open_faults self.old.link ≤ L.open_faults self.new.link }
        ensures made { L.made self.new.link ≡ one_more (L.made self.old.link) }
        ensures notes { NotesCall self.old.notes.recorded (Paired (is_ok result)) result self.new.notes.recorded }
        ensures passes { Grows (L.calls self.old.link) (Paired (is_ok result) ∷ []) (L.calls self.new.link) }
    {
        match self.link.pair() {
            Ok(()) => {
                self.notes.call(Made::Paired { ok: true }, &[]);
                Ok(())
            }
            Err(failed) => {
                self.note_failed(Made::Paired { ok: false }, &[]);
                Err(failed)
            }
        }
    }

    fn send(&mut self, bytes: &[u8]) -> Result<(), Failed>
        ensures calls { Sends (calls_recorded self.old.notes.recorded) bytes.now result (calls_recorded self.new.notes.recorded) }
        ensures ended { L.ended self.old.link ≡ true → L.ended self.new.link ≡ true }
        ensures cause { HasCause (L.faults self.old.link) (L.faults self.new.link) result }
        ensures later { L.open_faults self.old.link ≤ L.open_faults self.new.link }
        ensures made { L.made self.new.link ≡ one_more (L.made self.old.link) }
        ensures notes { NotesCall self.old.notes.recorded (sent_call bytes.now result) result self.new.notes.recorded }
        ensures passes { Sends (L.calls self.old.link) bytes.now result (L.calls self.new.link) }
    {
        match self.link.send(bytes) {
            Ok(()) => {
                self.notes.call(Made::Sent { ok: true }, bytes);
                Ok(())
            }
            Err(failed) => {
                self.note_failed(Made::Sent { ok: false }, &[]);
                Err(failed)
            }
        }
    }

    fn take(&mut self, buffer: &mut [u8]) -> Result<Taken, Failed>
        requires { length buffer.old ≡ TAKE_ROOM }
        ensures within { IfOk result (λ taken. IsWithin taken TAKE_ROOM) }
        ensures calls { Grows (calls_recorded self.old.notes.recorded) (take_call result buffer.new ∷ []) (calls_recorded self.new.notes.recorded) }
        ensures ended { EndsForGood (L.ended self.old.link) result (L.ended self.new.link) }
        ensures cause { HasCause (L.faults self.old.link) (L.faults self.new.link) result }
        ensures later { L.open_faults self.old.link ≤ L.open_faults self.new.link }
        ensures made { L.made self.new.link ≡ one_more (L.made self.old.link) }
        ensures notes { NotesCall self.old.notes.recorded (take_call result buffer.new) result self.new.notes.recorded }
        ensures passes { Grows (L.calls self.old.link) (take_call result buffer.new ∷ []) (L.calls self.new.link) }
    {
        match self.link.take(buffer) {
            Ok(Taken::Bytes(count)) => {
                self.notes.call(Made::Took, &buffer[..count]);
                Ok(Taken::Bytes(count))
            }
            Ok(Taken::Quiet) => {
                self.notes.call(Made::WasQuiet, &[]);
                Ok(Taken::Quiet)
            }
            Ok(Taken::End) => {
                self.notes.call(Made::WasEnd, &[]);
                Ok(Taken::End)
            }
            Err(failed) => {
                self.note_failed(Made::TakeFailed, &[]);
                Err(failed)
            }
        }
    }

    fn close(&mut self)
        ensures calls { Grows (calls_recorded self.old.notes.recorded) (Closed ∷ []) (calls_recorded self.new.notes.recorded) }
        ensures ended { L.ended self.old.link ≡ true → L.ended self.new.link ≡ true }
        ensures later { L.faults self.old.link ≤ L.faults self.new.link }
        ensures later_open { L.open_faults self.old.link ≤ L.open_faults self.new.link }
        ensures made { L.made self.new.link ≡ one_more (L.made self.old.link) }
        ensures notes { Grows (events_recorded self.old.notes.recorded) (Called Closed ∷ []) (events_recorded self.new.notes.recorded) }
        ensures passes { Grows (L.calls self.old.link) (Closed ∷ []) (L.calls self.new.link) }
    {
        self.link.close();
        self.notes.call(Made::Closed, &[]);
    }
}

impl<L: Complain> Watch for Watched<L> {
    ghost notes = { λ w. w.notes };

    fn watch(&mut self) -> Result<(), AllocError> {
        self.notes.keep(self.alloc)
    }

    fn notes(&self) -> &Notes {
        &self.notes
    }
}
