ghost use Rattle.std.specs.Prelude.{◌≡◌, ◌∷◌, List, IfOk, OnOk};
ghost use Rattle.core_bench.specs.Runs.{Run};
ghost use Rattle.rig_stage.specs.Running.{AreRecorded};
ghost use Rattle.modem_profile.specs.Profile.{default_profile};
ghost use Rattle.rig_runs.specs.Rig.{device};
ghost use Rattle.transparency.specs.Trial.{Trial};

use core_bench::Bench;
use kit_bytes::{PathText, Text};
use modem_profile::Profile;
use printed_ends::Twice;
use std::alloc::{AllocError, Global};

/// For how many seconds each answer is waited for.
pub(crate) const PATIENCE: u16 = 30;

/// A request of a tool that can be run twice.
pub trait RunsTwice: Sized + Drop {
    /// What it prints, and what is run for it.
    ghost trial: { Trial Self };

    /// Runs it on a simulated modem of the default profile itself, and on others in each of the other
    /// ways that there are: through a proxy where the tool is alone, and to a QMI modem also carried by
    /// an MBIM modem. Gives what it prints in one of these that prints another thing, if one does.
    /// What the proxy met is run on the bench too.
    fn run_twice<B: Bench>(
        self,
        alloc: Global,
        bench: &mut B,
        profile: &Profile,
    ) -> Result<Twice, AllocError>
        requires { profile.now ≡ default_profile }
        ensures direct { IfOk result (λ twice. trial.PrintsDirect self twice.direct) }
        ensures somewhere { IfOk result (λ twice. trial.PrintsSomewhere self twice.through) }
        ensures elsewhere { IfOk result (λ twice. twice.direct ≡ twice.through → trial.PrintsElsewhere self twice.through) }
        ensures same { IfOk result (λ twice. trial.IsCommand self → twice.direct ≡ twice.through) }
        ensures runs { OnOk result ((earlier : List Run) → AreRecorded (B.runs bench.old) earlier → AreRecorded (B.runs bench.new) (trial.run_of self ∷ earlier)) };
}

/// The path of the device.
pub(crate) fn device(alloc: Global) -> Result<PathText, AllocError>
    ensures { IfOk result (λ path. path ≡ device) }
{
    let path = Text::from_str(alloc, "rig")?;
    Ok(PathText::of(path).unwrap())
}
