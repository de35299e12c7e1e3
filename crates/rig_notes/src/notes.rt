ghost use Rattle.std.specs.Prelude.{◌≡◌, drop, take, length, [], ◌++◌, ◌≤◌, ℕ, List, OnOk};
ghost use Rattle.proxy_history.specs.Events as history;
ghost use Rattle.hub_io.specs.Events.{event_of};
ghost use Rattle.rig_notes.specs.Notes.{NotesEvent, nothing, told, with_event};

use crate::ledger::Ledger;
use crate::slices::behind;
use crate::{Reading, SHORTEST};
use hub_io::Event;
use kit_bytes::{ConnId, Octets};
use rig_stage::joined;
use rig_trace::{Counts, Met};
use std::alloc::{AllocError, Global};
use std::marker::Model;

/// The ledger and the trace of what a proxy met.
#[derive(Drop)]
pub(crate) struct Notes<R: Reading> {
    alloc: Global,
    ledger: Ledger<R>,
    // in its order
    trace: Vec<Met>,
    failed: bool,
}

impl<R: Reading> Model for Notes<R> {
    ghost use Rattle.rig_notes.specs.Notes.{Noted};

    ghost Value = { Noted };

    ghost view = { λ s. record { ledger = s.ledger; trace = s.trace.items; failed = s.failed } };
}

impl<R: Reading> Notes<R> {
    /// Notes of nothing.
    pub fn new(alloc: Global) -> Self
        ensures { result ≡ nothing }
    {
        Notes {
            alloc,
            ledger: Ledger::new(alloc),
            trace: Vec::new(alloc),
            failed: false,
        }
    }

    /// Whether something couldn't be noted: memory ran out, or the ledger failed.
    pub fn has_failed(&self) -> bool
        ensures { result ≡ self.now.failed }
    {
        self.failed
    }

    /// What became of the clients' requests.
    pub fn counts(&self) -> Counts
        ensures { result ≡ self.now.ledger.counts }
    {
        self.ledger.counts()
    }

    /// The requests in use, and what became of the others.
    pub fn ledger(&self) -> &Ledger<R>
        ensures { result.now ≡ self.now.ledger }
    {
        &self.ledger
    }

    /// Gives the trace.
    pub fn into_trace(self) -> Vec<Met>
        ensures { result.items ≡ self.trace }
    {
        self.trace
    }

    /// Notes an event: these bytes were new in the modem's queue then, and a client took these.
    pub(crate) fn note(&mut self, event: Event<'_>, asked: &[u8], taken: &[u8])
        ensures { NotesEvent R.reading (event_of event.entry) asked.now taken.now self.old self.new }
    {
        if self.try_note(event, asked, taken).is_err() {
            self.failed = true;
        }
    }

    /// Notes that a client takes so many of the bytes of these two parts.
    pub(crate) fn note_taking(&mut self, conn: ConnId, count: usize, first: &[u8], second: &[u8])
        requires { count ≤ length (first.now ++ second.now) }
        ensures { NotesEvent R.reading (history.Took conn count) [] (take count (first.now ++ second.now)) self.old self.new }
    {
        match joined(self.alloc, first, second) {
            Ok(queue) => self.note(Event::Took(conn, count), &[], &queue.as_slice()[..count]),
            Err(_) => self.failed = true,
        }
    }

    /// Notes an event after which the bytes of these two parts wait for the modem, so many of them as
    /// before.
    pub(crate) fn note_met(&mut self, event: Event<'_>, before: usize, first: &[u8], second: &[u8])
        ensures { NotesEvent R.reading (event_of event.entry) (drop before (first.now ++ second.now)) [] self.old self.new }
    {
        match joined(self.alloc, first, second) {
            Ok(queue) => self.note(event, behind(queue.as_slice(), before), &[]),
            Err(_) => self.failed = true,
        }
    }

    fn try_note(&mut self, event: Event<'_>, asked: &[u8], taken: &[u8]) -> Result<(), AllocError>
        ensures { OnOk result (self.new ≡ with_event R.reading (event_of event.entry) asked.now taken.now self.old) }
    {
        match event {
            Event::Joined(conn) => self.tell(Met::Joins(conn)),
            Event::Piece(conn, message) => self.note_message(conn, message, asked),
            Event::ModemPiece(message) => self.note_answer(message),
            Event::Took(conn, _) => {
                let bytes = Octets::from_slice(self.alloc, taken)?;
                self.tell(Met::Takes(conn, bytes))
            }
            Event::Now(time) => self.note_time(time),
            Event::Left(_) | Event::ModemGone | Event::ModemBack | Event::ModemTook(_) => Ok(()),
        }
    }

    // A client's message.
    fn note_message(&mut self, conn: ConnId, message: &[u8], asked: &[u8]) -> Result<(), AllocError>
        ensures { OnOk result ((taken : List ℕ) → self.new ≡ with_event R.reading (history.Piece conn message.now) asked.now taken self.old) }
    {
        if message.len() < SHORTEST {
            return Err(AllocError);
        }
        let place = self.ledger.say(conn, message, asked)?;
        let said = Octets::from_slice(self.alloc, message)?;
        self.tell(Met::Said(conn, said))?;
        if !asked.is_empty() {
            return Ok(());
        }
        let Some(answer) = R::at_once(self.alloc, message)? else {
            return Ok(());
        };
        self.tell(Met::Heard(conn, place, answer))?;
        Ok(())
    }

    // An answer of the modem.
    fn note_answer(&mut self, message: &[u8]) -> Result<(), AllocError>
        ensures { OnOk result ((asked taken : List ℕ) → self.new ≡ with_event R.reading (history.ModemPiece message.now) asked taken self.old) }
    {
        let Some(row) = self.ledger.answer(message)? else {
            return Ok(());
        };
        let heard = Octets::from_slice(self.alloc, message)?;
        self.tell(Met::Heard(row.conn, row.place, heard))?;
        Ok(())
    }

    // The clock shows a time.
    fn note_time(&mut self, time: u64) -> Result<(), AllocError>
        ensures { OnOk result ((asked taken : List ℕ) → self.new ≡ with_event R.reading (history.Now time) asked taken self.old) }
    {
        self.ledger.pass(time)?;
        self.tell(Met::ClockShows(time))?;
        Ok(())
    }

    // The trace goes on.
    fn tell(&mut self, met: Met) -> Result<(), AllocError>
        ensures { OnOk result (self.new ≡ told met self.old) }
    {
        self.trace.push(met)?;
        Ok(())
    }
}
