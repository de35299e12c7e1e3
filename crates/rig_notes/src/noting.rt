ghost use Rattle.std.specs.Prelude.{◌≡◌, ◌≤◌, [], false, true, List, length, take, drop};
ghost use Rattle.proxy_history.specs.Events as history;
ghost use Rattle.proxy_history.specs.Proxy.{Proxy};
ghost use Rattle.hub_io.specs.Events.{event_of};
ghost use Rattle.rig_trace.specs.Rows.{number_at, ledger_of};
ghost use Rattle.rig_trace.specs.Trace.{trace_of};
ghost use Rattle.rig_notes.specs.Notes.{nothing, NotesEvent};
ghost use Rattle.rig_notes.specs.Noting.{Keeps};

use crate::Reading;
use crate::notes::Notes;
use core_bench::Bench;
use hub_io::{Event, Limits};
use kit_bytes::{ConnId, Kind};
use rig_stage::count_modem_waiting;
use rig_trace::{Counts, Met};
use std::alloc::{AllocError, Global};
use std::mem::replace;

/// A bench that notes what is met on the bench that it owns.
///
/// Where something can't be noted, all goes on, and `has_failed` tells it.
#[derive(Drop)]
pub struct Noting<R: Reading, B: Bench> {
    bench: B,
    // of what was met since a core was opened
    notes: Notes<R>,
}

impl<R: Reading, B: Bench> Noting<R, B> {
    /// One that runs cores on this bench, and has noted nothing.
    pub fn over(alloc: Global, bench: B) -> Self
        ensures bench { result.bench ≡ bench }
        ensures notes { result.notes ≡ nothing }
    {
        Noting {
            bench,
            notes: Notes::new(alloc),
        }
    }

    /// Gives the bench back.
    pub fn into_bench(self) -> B
        ensures { result ≡ self.bench }
    {
        self.bench
    }

    /// Whether something couldn't be noted since a core was opened or the trace was taken.
    pub fn has_failed(&self) -> bool
        ensures { result ≡ self.now.notes.failed }
    {
        self.notes.has_failed()
    }

    /// What became of the clients' requests.
    pub fn counts(&self) -> Counts
        ensures counts { result ≡ self.now.notes.ledger.counts }
        ensures noted { (p : Proxy) (past : List history.Event) → Keeps R.reading B.keeps p past self.now → self.now.notes.failed ≡ false → result ≡ (ledger_of R.reading p past).counts }
    {
        self.notes.counts()
    }

    /// The number of the request that the client made by its message from this place.
    pub fn number_at(&self, conn: ConnId, place: u64) -> Option<u32>
        ensures { result ≡ number_at conn place self.now.notes.ledger.rows }
    {
        self.notes.ledger().number_at(conn, place)
    }

    /// Gives the trace, and begins new notes.
    pub fn take_trace(&mut self, alloc: Global) -> Vec<Met>
        ensures trace { result.items ≡ self.old.notes.trace }
        ensures noted { (p : Proxy) (past : List history.Event) → Keeps R.reading B.keeps p past self.old → self.old.notes.failed ≡ false → result.items ≡ trace_of R.reading p past }
        ensures bench { self.new.bench ≡ self.old.bench }
        ensures notes { self.new.notes ≡ nothing }
    {
        let notes = replace(&mut self.notes, Notes::new(alloc));
        notes.into_trace()
    }
}

// Notes that a client takes so many of the bytes that wait for it.
fn note_taking<R: Reading, B: Bench>(bench: &B, notes: &mut Notes<R>, conn: ConnId, count: usize)
    requires held { B.is_held bench.now ≡ true }
    requires within { count ≤ length ((B.face bench.now).queue conn) }
    ensures { NotesEvent R.reading (history.Took conn count) [] (take count ((B.face bench.now).queue conn)) notes.old notes.new }
{
    let (first, second) = bench.parts(conn);
    notes.note_taking(conn, count, first, second);
}

// Notes an event before which so many bytes waited for the modem.
fn note_met<R: Reading, B: Bench>(bench: &B, notes: &mut Notes<R>, event: Event<'_>, before: usize)
    requires { B.is_held bench.now ≡ true }
    ensures { NotesEvent R.reading (event_of event.entry) (drop before (B.face bench.now).modem_queue) [] notes.old notes.new }
{
    let (first, second) = bench.modem_parts();
    notes.note_met(event, before, first, second);
}

impl<R: Reading, B: Bench> Bench for Noting<R, B> {
    ghost face = { λ s. B.face s.bench };

    ghost is_held = { λ s. B.is_held s.bench };

    ghost keeps = { λ p past s. Keeps R.reading B.keeps p past s };

    ghost runs = { λ s. B.runs s.bench };

    fn open(
        &mut self,
        alloc: Global,
        kind: Kind,
        limits: &Limits,
        device: &str,
    ) -> Result<(), AllocError> {
        self.bench.open(alloc, kind, limits, device)?;
        self.notes = Notes::new(alloc);
        Ok(())
    }

    fn step(&mut self, event: Event<'_>) {
        if let Event::Took(conn, count) = event {
            note_taking(&self.bench, &mut self.notes, conn, count);
            self.bench.step(event);
            return;
        }
        let before = count_modem_waiting(&self.bench);
        self.bench.step(event);
        note_met(&self.bench, &mut self.notes, event, before);
    }

    fn queued(&self, conn: ConnId) -> &[u8] {
        self.bench.queued(conn)
    }

    fn queued_modem(&self) -> &[u8] {
        self.bench.queued_modem()
    }

    fn parts(&self, conn: ConnId) -> (&[u8], &[u8]) {
        self.bench.parts(conn)
    }

    fn modem_parts(&self) -> (&[u8], &[u8]) {
        self.bench.modem_parts()
    }

    fn next_dropped(&mut self) -> Option<ConnId> {
        self.bench.next_dropped()
    }

    fn take(&mut self, alloc: Global) -> Result<Self, AllocError> {
        let bench = self.bench.take(alloc)?;
        let notes = replace(&mut self.notes, Notes::new(alloc));
        Ok(Noting { bench, notes })
    }

    ghost shows = { λ p past s kept. B.shows p past s.bench kept.kept };

    ghost nobody = { λ s conn absent none. B.nobody s.bench conn absent none };
}
