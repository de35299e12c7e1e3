ghost use Rattle.std.specs.Prelude.{◌≡◌, ◌≤◌, ◌++◌, List, IfOk, OnOk, OnErr};
ghost use Rattle.core_bench.specs.Runs.{Run};
ghost use Rattle.rig_stage.specs.Running.{AreRecorded};
ghost use Rattle.rig.specs.Begun.{AddsFirst};
ghost use Rattle.rig.specs.Lines.{rig_lines, runs_of};
ghost use Rattle.rig.specs.Playing.{TellsRig};
ghost use Rattle.rig.specs.Stopping.{StopsRig};

use crate::playing::play;
use crate::text::write;
use core_bench::Bench;
use kit_bytes::{Kind, Octets};
use rig_notes::{MbimReading, QmiReading, Reading};
use rig_play::{MbimClients, Protocol, QmiClients};
use std::alloc::{AllocError, Global};

/// Runs a core on an input that is drawn from a number, with 1 to 64 clients and at most 100,000 turns,
/// and then for each client on what that client meets alone. Gives eight lines: how many clients and
/// turns there were, what became of the clients' requests, and how many of the clients took the same
/// bytes alone. Where memory runs out, the bench keeps what was done: the first of those runs, of which
/// the last may be cut short.
pub fn rig_lines<B: Bench>(
    alloc: Global,
    bench: &mut B,
    kind: Kind,
    clients: u8,
    turns: u32,
    number: u64,
) -> Result<Octets, AllocError>
    requires some { 1 ≤ clients }
    requires few { clients ≤ 64 }
    requires short { turns ≤ 100000 }
    ensures lines { IfOk result (λ lines. lines ≡ rig_lines kind clients turns number) }
    ensures runs { OnOk result ((earlier : List Run) → AreRecorded (B.runs bench.old) earlier → AreRecorded (B.runs bench.new) (runs_of kind clients turns number ++ earlier)) }
    ensures stops { OnErr result (AddsFirst (B.runs bench.old) (runs_of kind clients turns number) (B.runs bench.new)) }
{
    match kind {
        Kind::Qmi => lines::<QmiClients, QmiReading, B>(alloc, bench, clients, turns, number),
        Kind::Mbim => lines::<MbimClients, MbimReading, B>(alloc, bench, clients, turns, number),
    }
}

// The same for a protocol.
fn lines<P: Protocol, R: Reading, B: Bench>(
    alloc: Global,
    bench: &mut B,
    clients: u8,
    turns: u32,
    number: u64,
) -> Result<Octets, AllocError>
    requires { 1 ≤ clients }
    ensures tells { IfOk result (TellsRig R.reading P.proxy P.kind clients turns (P.events clients turns number) (B.runs bench.old) (B.runs bench.new)) }
    ensures stops { OnErr result (StopsRig R.reading P.proxy P.kind clients (P.events clients turns number) (B.runs bench.old) (B.runs bench.new)) }
{
    let outcome = play::<P, R, B>(alloc, bench, clients, turns, number)?;
    write(alloc, clients, turns, &outcome)
}
