ghost use Rattle.std.specs.Prelude.{◌≡◌, ◌≤◌};
ghost use Rattle.kit_io.specs.Causes.{Rose};
ghost use Rattle.program.specs.Rigging.{RigsTo, ShowsTransparency};
ghost use Rattle.program.specs.Status.{IsOfRig};

use crate::status::Status;
use core_bench::Bench;
use kit_bytes::Kind;
use kit_io::{Sink, WriteFault, write_all_to};
use rig::rig_lines;
use std::alloc::{AllocError, Global};
use transparency::tool_lines;

// Runs a core on the bench, with so many clients and for so many turns, which are drawn from the number,
// and then with each client alone. Prints the lines of it.
pub fn print_rig<O: Sink, B: Bench>(
    alloc: Global,
    kind: Kind,
    clients: u8,
    turns: u32,
    number: u64,
    out: &mut O,
    bench: &mut B,
) -> Status
    requires some { 1 ≤ clients }
    requires few { clients ≤ 64 }
    requires short { turns ≤ 100000 }
    ensures rigs { RigsTo kind clients turns number (B.runs bench.old) (O.taken out.old) result (B.runs bench.new) (O.taken out.new) }
    ensures own { IsOfRig result }
    ensures write_fault { result ≡ Status.WriteFault → Rose (O.faults out.old) (O.faults out.new) }
{
    match rig_lines(alloc, bench, kind, clients, turns, number) {
        Err(AllocError) => Status::OutOfMemory,
        Ok(lines) => match write_all_to(out, lines.as_slice()) {
            Ok(()) => Status::Done,
            Err(WriteFault) => Status::WriteFault,
        },
    }
}

// Runs each command without a value of the tool of a kind at a simulated modem itself and through a
// proxy, and prints the lines of it.
pub fn print_transparency<O: Sink, B: Bench>(
    alloc: Global,
    kind: Kind,
    out: &mut O,
    bench: &mut B,
) -> Status
    ensures shows { ShowsTransparency kind (B.runs bench.old) (O.taken out.old) result (B.runs bench.new) (O.taken out.new) }
    ensures own { IsOfRig result }
    ensures write_fault { result ≡ Status.WriteFault → Rose (O.faults out.old) (O.faults out.new) }
{
    match tool_lines(alloc, bench, kind) {
        Err(AllocError) => Status::OutOfMemory,
        Ok(lines) => match write_all_to(out, lines.as_slice()) {
            Ok(()) => Status::Done,
            Err(WriteFault) => Status::WriteFault,
        },
    }
}
