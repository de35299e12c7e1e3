ghost use Rattle.std.specs.Prelude.{◌≡◌, ◌+◌, OnOk, OnErr, fold};
ghost use Rattle.std.specs.List.{range_with_len};
ghost use Rattle.rig_runs.specs.Rig as rig;
ghost use Rattle.rig_stage.specs.Ready.{IsReady, StaysReady};
ghost use Rattle.rig_stage.specs.Stage.{Acts, Stops};
ghost use Rattle.rig_play.specs.Play.{script_of};

use crate::Protocol;
use core_bench::Bench;
use kit_bytes::ConnId;
use rig_stage::Stage;
use sim_modem::Sim;
use std::alloc::{AllocError, Global};

/// So many clients join.
pub(crate) fn join_all<S: Sim, B: Bench>(
    stage: &mut Stage<S>,
    bench: &mut B,
    clients: u8,
) -> Result<(), AllocError>
    requires ready { IsReady (B.is_held bench.old) (B.face bench.old) }
    requires new { (B.face bench.old).greatest ≡ 0 }
    ensures ready { OnOk result (IsReady (B.is_held bench.new) (B.face bench.new)) }
    ensures clients { OnOk result (stage.new.clients ≡ stage.old.clients) }
    ensures time { OnOk result (stage.new.time ≡ stage.old.time) }
    ensures acts { OnOk result (Acts B.keeps B.runs S.keeps S.Framing.size (λ cast now. fold (rig.join cast) now (range_with_len 1 clients)) stage.old bench.old stage.new bench.new) }
    ensures stops { OnErr result (Stops B.keeps B.runs S.keeps S.Framing.size (λ cast now. fold (rig.join cast) now (range_with_len 1 clients)) stage.old bench.old bench.new) }
{
    for index in 0..clients {
        stage.join(bench, u64::from(index) + 1)?;
    }
    Ok(())
}

/// So many clients open the device, one after the other.
pub(crate) fn open_all<P: Protocol, B: Bench>(
    alloc: Global,
    stage: &mut Stage<P::Modem>,
    bench: &mut B,
    clients: u8,
) -> Result<(), AllocError>
    requires { IsReady (B.is_held bench.old) (B.face bench.old) }
    ensures ready { OnOk result (IsReady (B.is_held bench.new) (B.face bench.new)) }
    ensures clients { OnOk result (stage.new.clients ≡ stage.old.clients) }
    ensures time { OnOk result (stage.new.time ≡ stage.old.time) }
    ensures acts { OnOk result (Acts B.keeps B.runs P.Modem.keeps P.Modem.Framing.size
        (λ cast now. fold (rig.open_device cast (script_of P.first P.second P.asks P.FIRST_NUMBER)) now (range_with_len 1 clients)) stage.old bench.old stage.new bench.new) }
    ensures stops { OnErr result (Stops B.keeps B.runs P.Modem.keeps P.Modem.Framing.size
        (λ cast now. fold (rig.open_device cast (script_of P.first P.second P.asks P.FIRST_NUMBER)) now (range_with_len 1 clients)) stage.old bench.old bench.new) }
{
    for index in 0..clients {
        open_device::<P, B>(alloc, stage, bench, u64::from(index) + 1)?;
    }
    Ok(())
}

// A client opens the device: what the modem says to each of its messages arrives at once.
fn open_device<P: Protocol, B: Bench>(
    alloc: Global,
    stage: &mut Stage<P::Modem>,
    bench: &mut B,
    conn: ConnId,
) -> Result<(), AllocError>
    requires { IsReady (B.is_held bench.old) (B.face bench.old) }
    ensures ready { OnOk result (StaysReady (B.is_held bench.new) (B.face bench.old) (B.face bench.new)) }
    ensures clients { OnOk result (stage.new.clients ≡ stage.old.clients) }
    ensures time { OnOk result (stage.new.time ≡ stage.old.time) }
    ensures acts { OnOk result (Acts B.keeps B.runs P.Modem.keeps P.Modem.Framing.size
        (λ cast now. rig.open_device cast (script_of P.first P.second P.asks P.FIRST_NUMBER) now conn) stage.old bench.old stage.new bench.new) }
    ensures stops { OnErr result (Stops B.keeps B.runs P.Modem.keeps P.Modem.Framing.size
        (λ cast now. rig.open_device cast (script_of P.first P.second P.asks P.FIRST_NUMBER) now conn) stage.old bench.old bench.new) }
{
    let first = P::first(alloc)?;
    stage.say(bench, conn, first.as_slice())?;
    stage.all_arrive(bench)?;
    let second = P::second(alloc)?;
    stage.say(bench, conn, second.as_slice())?;
    stage.all_arrive(bench)?;
    Ok(())
}
