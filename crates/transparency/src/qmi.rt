ghost use Rattle.std.specs.Prelude.{◌≡◌, ◌∷◌, true, List, OnOk, IfOk};
ghost use Rattle.std.specs.Str.{encode_utf8_all};
ghost use Rattle.kit_bytes.specs.declared.kind.Kind.TheVariants.{Qmi};
ghost use Rattle.qmux_frame.specs.Frame.{size_of};
ghost use Rattle.core_bench.specs.Runs.{Run};
ghost use Rattle.rig_stage.specs.Running.{AreRecorded};
ghost use Rattle.modem_profile.specs.Limits.{IsWithin};
ghost use Rattle.sim_modem.specs.Sim.{answers};
ghost use Rattle.sim_qmi.specs.Modem.{machine};
ghost use Rattle.device_core.specs.Peer.{session_at};
ghost use Rattle.lone_client.specs.Relay.{through};
ghost use Rattle.relays.specs.QmiRuns.{direct_run, through_run};
ghost use Rattle.printed_ends.specs.Held.{IsHeld};
ghost use Rattle.transparency.specs.Peers.{at_modem, cast_of};
ghost use Rattle.printed_ends.specs.Qmi.{Prints};
ghost use Rattle.transparency.specs.QmiTwice.{AreShort, IsTold, run_of};

use crate::modem::ModemPeer;
use crate::proxy::ProxyPeer;
use crate::relaying::play;
use core_bench::{Bench, Cores};
use device_core::QmiPlan;
use modem_profile::Profile;
use printed_ends::{Held, Twice, hold_qmi};
use qmi_requests::QmiRequest;
use qmi_services::request;
use sim_qmi::QmiSim;
use std::alloc::{AllocError, Global};

/// Runs the command of a plan on a simulated modem of this profile itself, and on another one through
/// the QMI proxy of the plan's device, where no time passes and the tool is alone. It prints the same.
///
/// What the proxy met is run on the bench too. Whether the plan is proxied isn't read.
pub fn qmi_twice<B: Bench>(
    alloc: Global,
    bench: &mut B,
    profile: &Profile,
    plan: QmiPlan,
) -> Result<Twice, AllocError>
    ensures direct { IfOk result (λ twice. Prints (direct_run profile.now plan).end twice.direct) }
    ensures through { IfOk result (λ twice. Prints (through_run profile.now plan).end twice.through) }
    ensures same { IfOk result (λ twice. IsTold profile.now plan → twice.direct ≡ twice.through) }
    ensures runs { OnOk result ((earlier : List Run) → AreRecorded (B.runs bench.old) earlier → AreRecorded (B.runs bench.new) (run_of profile.now plan ∷ earlier)) }
{
    let mut plan = plan;
    let twice = run_twice(alloc, bench, profile, &mut plan);
    drop(plan);
    twice
}

// By a plan that is lent.
fn run_twice<B: Bench>(
    alloc: Global,
    bench: &mut B,
    profile: &Profile,
    plan: &mut QmiPlan,
) -> Result<Twice, AllocError>
    ensures direct { IfOk result (λ twice. Prints (direct_run profile.now plan.old).end twice.direct) }
    ensures through { IfOk result (λ twice. Prints (through_run profile.now plan.old).end twice.through) }
    ensures same { IfOk result (λ twice. IsTold profile.now plan.old → twice.direct ≡ twice.through) }
    ensures runs { OnOk result ((earlier : List Run) → AreRecorded (B.runs bench.old) earlier → AreRecorded (B.runs bench.new) (run_of profile.now plan.old ∷ earlier)) }
{
    have_room(alloc, plan)?;
    plan.proxied = false;
    let direct = directly(alloc, profile, plan)?;
    plan.proxied = true;
    let through = behind_proxy(alloc, profile, plan)?;
    let device = plan.device.value().as_str();
    play::<QmiSim, B>(alloc, bench, profile, device, &through.texts)?;
    Ok(Twice {
        direct: direct.printed,
        through: through.printed,
    })
}

/// The session of a plan with a modem of this profile itself.
pub(crate) fn directly(alloc: Global, profile: &Profile, plan: &QmiPlan) -> Result<Held, AllocError>
    ensures limits { OnOk result (IsWithin profile.now) }
    ensures held { IfOk result (IsHeld Prints (session_at (at_modem size_of (answers (machine profile.now))) plan.now)) }
{
    let modem: ModemPeer<QmiSim> = ModemPeer::open(alloc, profile)?;
    let held = hold_qmi(alloc, modem, plan)?;
    Ok(held)
}

// The session of a plan with a modem of this profile through the proxy of the plan's device.
fn behind_proxy(alloc: Global, profile: &Profile, plan: &QmiPlan) -> Result<Held, AllocError>
    ensures { IfOk result (IsHeld Prints (session_at (through (cast_of Qmi (encode_utf8_all plan.now.device) size_of (answers (machine profile.now)))) plan.now)) }
{
    let device = plan.device.value().as_str();
    let proxy: ProxyPeer<QmiSim, Cores> = ProxyPeer::open(alloc, profile, device, Cores::none())?;
    let held = hold_qmi(alloc, proxy, plan)?;
    Ok(held)
}

/// A message has room for the texts of a plan, since their types keep them short. Else memory ran out.
pub(crate) fn have_room(alloc: Global, plan: &QmiPlan) -> Result<(), AllocError>
    ensures { OnOk result (AreShort plan.now) }
{
    let _inputs = request(alloc, &plan.request)?;
    let device = plan.device.copy(alloc)?;
    let opening = QmiRequest::ProxyOpen(device);
    let inputs = request(alloc, &opening);
    drop(opening);
    let _inputs = inputs?;
    Ok(())
}
