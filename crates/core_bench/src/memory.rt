ghost use Rattle.std.specs.Prelude.{◌≡◌, ◌≤◌, [], Some, false, IfOk, IfSome};
ghost use Rattle.hub_io.specs.Events.{event_of};
ghost use Rattle.kit_io.specs.Record.{Notes};
ghost use Rattle.core_bench.specs.Runs.{AddsRun, AddsEvent};
ghost use Rattle.core_bench.specs.Held.{face_of, is_held, Keeps, shows_of, nobody_of};
ghost use Rattle.core_bench.specs.Notes.{runs_of, event_as};

use crate::{Bench, Cores};
use hub_io::{Event, Limits};
use kit_bytes::{ConnId, Kind};
use kit_io::Log;
use std::alloc::{AllocError, Global};
use std::mem::replace;

/// What was done on a bench in memory. Its bytes stand beside it: the device's path, or a piece.
#[derive(Clone, Copy, PartialEq, Eq)]
pub enum BenchNote {
    /// A core was opened.
    Opened { kind: Kind, limits: Limits },
    // ---- the core met this event ----
    Joined(ConnId),
    Piece(u64),
    Left(ConnId),
    ModemPiece,
    ModemGone,
    ModemBack,
    Now(u64),
    Took(ConnId, usize),
    ModemTook(usize),
}

/// A bench that runs cores, and tells what was run on it as long as there is room.
#[derive(Drop)]
pub struct MemBench {
    cores: Cores,
    log: Log<BenchNote>,
}

impl MemBench {
    /// One that holds no core yet, with room to tell of so many openings and events, and of so many
    /// bytes of theirs in all.
    pub fn new(alloc: Global, room: usize, bytes_room: usize) -> Result<Self, AllocError>
        ensures held { IfOk result (λ bench. is_held bench.cores.held ≡ false) }
        ensures recorded { IfOk result (λ bench. bench.log.recorded ≡ Some []) }
        ensures room { IfOk result (λ bench. room ≤ bench.log.room) }
        ensures bytes_room { IfOk result (λ bench. bytes_room ≤ bench.log.bytes_room) }
    {
        let log = Log::new(alloc, room, bytes_room)?;
        Ok(MemBench {
            cores: Cores::none(),
            log,
        })
    }

    /// What was done so far, the oldest first.
    pub fn log(&self) -> &Log<BenchNote>
        ensures { result.now ≡ self.now.log }
    {
        &self.log
    }
}

// Notes an opening.
fn note_opening(log: &mut Log<BenchNote>, kind: Kind, limits: &Limits, device: &str)
    ensures { AddsRun (runs_of log.old.recorded) (record { kind = kind; limits = limits.now; device = device.now; events = [] }) (runs_of log.new.recorded) }
{
    log.note(
        BenchNote::Opened {
            kind,
            limits: *limits,
        },
        device.as_bytes(),
    );
}

// Notes an event.
fn note(log: &mut Log<BenchNote>, note: BenchNote, bytes: &[u8])
    ensures notes { Notes log.old (record { kind = note; bytes = bytes.now }) log.new }
    ensures event { IfSome (event_as note bytes.now) (λ event. AddsEvent (runs_of log.old.recorded) event (runs_of log.new.recorded)) }
{
    log.note(note, bytes);
}

fn note_event(log: &mut Log<BenchNote>, event: Event<'_>)
    ensures { AddsEvent (runs_of log.old.recorded) (event_of event.entry) (runs_of log.new.recorded) }
{
    match event {
        Event::Joined(conn) => note(log, BenchNote::Joined(conn), &[]),
        Event::Piece(conn, piece) => note(log, BenchNote::Piece(conn), piece),
        Event::Left(conn) => note(log, BenchNote::Left(conn), &[]),
        Event::ModemPiece(piece) => note(log, BenchNote::ModemPiece, piece),
        Event::ModemGone => note(log, BenchNote::ModemGone, &[]),
        Event::ModemBack => note(log, BenchNote::ModemBack, &[]),
        Event::Now(time) => note(log, BenchNote::Now(time), &[]),
        Event::Took(conn, count) => note(log, BenchNote::Took(conn, count), &[]),
        Event::ModemTook(count) => note(log, BenchNote::ModemTook(count), &[]),
    }
}

impl Bench for MemBench {
    ghost face = { λ s. face_of s.cores.held };

    ghost is_held = { λ s. is_held s.cores.held };

    ghost keeps = { λ p past s. Keeps p past s.cores.held };

    ghost runs = { λ s. runs_of s.log.recorded };

    fn open(
        &mut self,
        alloc: Global,
        kind: Kind,
        limits: &Limits,
        device: &str,
    ) -> Result<(), AllocError> {
        self.cores.open(alloc, kind, limits, device)?;
        note_opening(&mut self.log, kind, limits, device);
        Ok(())
    }

    fn step(&mut self, event: Event<'_>) {
        note_event(&mut self.log, event);
        self.cores.step(event);
    }

    fn queued(&self, conn: ConnId) -> &[u8] {
        self.cores.queued(conn)
    }

    fn queued_modem(&self) -> &[u8] {
        self.cores.queued_modem()
    }

    fn parts(&self, conn: ConnId) -> (&[u8], &[u8]) {
        self.cores.parts(conn)
    }

    fn modem_parts(&self) -> (&[u8], &[u8]) {
        self.cores.modem_parts()
    }

    fn next_dropped(&mut self) -> Option<ConnId> {
        self.cores.next_dropped()
    }

    fn take(&mut self, alloc: Global) -> Result<Self, AllocError> {
        let none = MemBench::new(alloc, 0, 0)?;
        Ok(replace(self, none))
    }

    ghost shows = { λ p past s. shows_of p past s.cores.held };

    ghost nobody = { λ s conn absent none. nobody_of s.cores.held conn absent none };
}
