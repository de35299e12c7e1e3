ghost use Rattle.std.specs.Prelude.{◌≤◌, ◌<◌, IfOk, OnErr};
ghost use Rattle.rig.specs.Playing.{RunsEach, RunsOne, PlaysRig};
ghost use Rattle.rig.specs.Stopping.{StopsEach, StopsOne, StopsRig};

use crate::text::Outcome;
use core_bench::Bench;
use kit_bytes::ConnId;
use rig_notes::{Noting, Reading, run_alone};
use rig_play::{Protocol, open_core, run_clients};
use rig_trace::Met;
use std::alloc::{AllocError, Global};

/// Runs a core with all clients on a bench, and then with each of them alone.
pub(crate) fn play<P: Protocol, R: Reading, B: Bench>(
    alloc: Global,
    bench: &mut B,
    clients: u8,
    turns: u32,
    number: u64,
) -> Result<Outcome, AllocError>
    requires { 1 ≤ clients }
    ensures plays { IfOk result (PlaysRig R.reading P.proxy P.kind clients (P.events clients turns number) (B.runs bench.old) (B.runs bench.new)) }
    ensures stops { OnErr result (StopsRig R.reading P.proxy P.kind clients (P.events clients turns number) (B.runs bench.old) (B.runs bench.new)) }
{
    let mut noting: Noting<R, B> = Noting::over(alloc, bench.take(alloc)?);
    let outcome = play_on::<P, R, B>(alloc, &mut noting, clients, turns, number);
    *bench = noting.into_bench();
    outcome
}

// The same on a bench that notes its trace.
fn play_on<P: Protocol, R: Reading, B: Bench>(
    alloc: Global,
    noting: &mut Noting<R, B>,
    clients: u8,
    turns: u32,
    number: u64,
) -> Result<Outcome, AllocError>
    requires { 1 ≤ clients }
    ensures plays { IfOk result (PlaysRig R.reading P.proxy P.kind clients (P.events clients turns number) (B.runs noting.old.bench) (B.runs noting.new.bench)) }
    ensures stops { OnErr result (StopsRig R.reading P.proxy P.kind clients (P.events clients turns number) (B.runs noting.old.bench) (B.runs noting.new.bench)) }
{
    run_clients::<P, Noting<R, B>>(alloc, noting, clients, turns, number)?;
    if noting.has_failed() {
        return Err(AllocError);
    }
    let counts = noting.counts();
    let trace = noting.take_trace(alloc);
    let equal = count_equal::<P, R, B>(alloc, noting, clients, &trace)?;
    Ok(Outcome { counts, equal })
}

// Runs a core for each client alone, and counts those that take the same bytes.
fn count_equal<P: Protocol, R: Reading, B: Bench>(
    alloc: Global,
    noting: &mut Noting<R, B>,
    clients: u8,
    trace: &[Met],
) -> Result<u8, AllocError>
    ensures each { IfOk result (RunsEach R.reading P.proxy P.kind trace.now clients (B.runs noting.old.bench) (B.runs noting.new.bench)) }
    ensures stops { OnErr result (StopsEach R.reading P.proxy P.kind trace.now clients (B.runs noting.old.bench) (B.runs noting.new.bench)) }
{
    let mut equal: u8 = 0;
    for index in 0..clients {
        if is_equal::<P, R, B>(alloc, noting, u64::from(index) + 1, trace)? {
            equal += 1;
        }
    }
    Ok(equal)
}

// Runs a core for a client alone, and says whether it takes the same bytes.
fn is_equal<P: Protocol, R: Reading, B: Bench>(
    alloc: Global,
    noting: &mut Noting<R, B>,
    conn: ConnId,
    trace: &[Met],
) -> Result<bool, AllocError>
    requires { 0 < conn }
    ensures one { IfOk result (RunsOne R.reading P.proxy P.kind trace.now conn (B.runs noting.old.bench) (B.runs noting.new.bench)) }
    ensures stops { OnErr result (StopsOne R.reading P.proxy P.kind trace.now conn (B.runs noting.old.bench) (B.runs noting.new.bench)) }
{
    open_core::<P, Noting<R, B>>(alloc, noting)?;
    run_alone(alloc, noting, conn, trace)
}
