ghost use Rattle.std.specs.Prelude.{◌≡◌, ◌<◌, [], List, OnOk, OnErr};
ghost use Rattle.core_bench.specs.Runs.{Run};
ghost use Rattle.rig_stage.specs.Ready.{IsReady};
ghost use Rattle.rig_stage.specs.Running.{AreRecorded, Runs};
ghost use Rattle.rig_play.specs.Runs.{run_of, StopsEarly};

use crate::players::play_all;
use crate::protocol::{DEVICE, Protocol};
use core_bench::Bench;
use hub_io::Limits;
use std::alloc::{AllocError, Global};

/// How long a request waits for its answer, in milliseconds.
const TIME_LIMIT: u64 = 30_000;

/// Opens a core of the rig's proxy on a bench. Where memory runs out the bench stays as it was.
pub fn open_core<P: Protocol, B: Bench>(alloc: Global, bench: &mut B) -> Result<(), AllocError>
    ensures ready { OnOk result (IsReady (B.is_held bench.new) (B.face bench.new)) }
    ensures new { OnOk result ((B.face bench.new).greatest ≡ 0) }
    ensures runs { OnOk result ((earlier : List Run) → AreRecorded (B.runs bench.old) earlier → Runs B.keeps B.runs P.proxy (run_of P.kind []) earlier [] bench.new) }
    ensures err { OnErr result (bench.new ≡ bench.old) }
{
    let limits = Limits {
        time: TIME_LIMIT,
        release: None,
    };
    bench.open(alloc, P::kind(), &limits, DEVICE)?;
    Ok(())
}

/// Runs a core of the rig's proxy on what so many clients and a simulated modem bring in so many turns,
/// which are drawn from a number. Where the bench tells its runs, this one is the newest of them then.
/// Where memory runs out, the bench keeps what was done: no run, or one that is cut short.
pub fn run_clients<P: Protocol, B: Bench>(
    alloc: Global,
    bench: &mut B,
    clients: u8,
    turns: u32,
    number: u64,
) -> Result<(), AllocError>
    requires { 0 < clients }
    ensures ready { OnOk result (IsReady (B.is_held bench.new) (B.face bench.new)) }
    ensures runs { OnOk result ((earlier : List Run) → AreRecorded (B.runs bench.old) earlier → Runs B.keeps B.runs P.proxy (run_of P.kind []) earlier (P.events clients turns number) bench.new) }
    ensures stops { OnErr result ((earlier : List Run) → AreRecorded (B.runs bench.old) earlier → StopsEarly (run_of P.kind []) earlier (P.events clients turns number) (B.runs bench.new)) }
{
    open_core::<P, B>(alloc, bench)?;
    play_all::<P, B>(alloc, bench, clients, turns, number)
}
