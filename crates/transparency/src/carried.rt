ghost use Rattle.std.specs.Prelude.{◌≡◌, false, IfOk};
ghost use Rattle.mbim_frame.specs.Frame.{size_of};
ghost use Rattle.tunnel_session.specs.Peer.{tunnel_at};
ghost use Rattle.transparency.specs.Peers.{at_modem};
ghost use Rattle.printed_ends.specs.Held.{IsHeld};
ghost use Rattle.printed_ends.specs.declared.printed.Printed.{Printed};
ghost use Rattle.relays.specs.QmiRuns.{direct_run};
ghost use Rattle.printed_ends.specs.Qmi as direct;
ghost use Rattle.transparency.specs.QmiTwice.{IsTold};
ghost use Rattle.relays.specs.TunnelRuns.{carrying_modem, tunnel_run};
ghost use Rattle.printed_ends.specs.Carried.{Prints};

use crate::carrier::Carrier;
use crate::modem::ModemPeer;
use crate::qmi::{directly, have_room};
use device_core::QmiPlan;
use modem_profile::Profile;
use printed_ends::{Held, Twice, hold_carried};
use std::alloc::{AllocError, Global};

/// Runs the command of a plan on a simulated modem of this profile itself, and on another one that a
/// simulated MBIM modem carries the messages to. It prints the same.
///
/// Whether the plan is proxied isn't read, and it is not then.
pub fn qmi_tunnelled(
    alloc: Global,
    profile: &Profile,
    plan: &mut QmiPlan,
) -> Result<Twice, AllocError>
    ensures direct { IfOk result (λ twice. direct.Prints (direct_run profile.now plan.old).end twice.direct) }
    ensures through { IfOk result (λ twice. Prints plan.old (tunnel_run profile.now plan.old).end twice.through) }
    ensures same { IfOk result (λ twice. IsTold profile.now plan.old → twice.direct ≡ twice.through) }
    ensures alike { IfOk result (λ twice. IsTold profile.now plan.old → (printed : Printed) → direct.Prints (direct_run profile.now plan.old).end printed → printed ≡ twice.through) }
    ensures plan { plan.new ≡ record plan.old { proxied = false } }
{
    plan.proxied = false;
    have_room(alloc, plan)?;
    let direct = directly(alloc, profile, plan)?;
    let through = carried(alloc, profile, plan)?;
    Ok(Twice {
        direct: direct.printed,
        through: through.printed,
    })
}

// The session of a plan with a modem of this profile that an MBIM modem carries the messages to.
fn carried(alloc: Global, profile: &Profile, plan: &QmiPlan) -> Result<Held, AllocError>
    ensures { IfOk result (IsHeld (Prints plan.now) (tunnel_at (at_modem size_of (carrying_modem profile.now)) plan.now)) }
{
    let carrier: ModemPeer<Carrier> = ModemPeer::open(alloc, profile)?;
    let held = hold_carried(alloc, carrier, plan)?;
    Ok(held)
}
