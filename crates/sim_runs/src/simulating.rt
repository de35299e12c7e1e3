ghost use Rattle.std.specs.Prelude.{◌≡◌, ◌≤◌, None, option_map};
ghost use Rattle.kit_io.specs.Causes.{Rose};
ghost use Rattle.hub_io.specs.Record.{Since};
ghost use Rattle.modem_profile.specs.Profile.{default_profile};
ghost use Rattle.modem_profile.specs.Reading.{profile_in};
ghost use Rattle.modem_rules.specs.Rules.{rules_view};
ghost use Rattle.sim_runs.specs.Simulating.{IsHubFault, ServesProfile, ServesRead, Simulates, asked_in, asked_of};

use crate::SimEnd;
use crate::serving::serve_profile;
use file_io::{Files, read_file};
use hub_io::{Hub, ServeEnd};
use modem_profile::{Profile, read_profile};
use modem_rules::Rules;
use sim_task::SimTask;
use std::alloc::{AllocError, Global};

/// Simulates a modem.
///
/// The profile is read first. Where it can't be read or isn't a profile, the hub isn't touched. Else
/// the hub is opened once, for the socket and no device, and its clients are served for so many turns
/// at most.
pub fn simulate<H: Hub, F: Files>(
    alloc: Global,
    task: &SimTask,
    hub: &mut H,
    files: &mut F,
) -> SimEnd
    ensures simulates { Simulates task.now.profile (asked_in task.now.kind task.now.socket task.now.turns)
        (record { files = F.calls files.old; hub = H.calls hub.old })
        (record { files = F.calls files.new; hub = H.calls hub.new })
        result }
    ensures apart { task.now.profile ≡ None → files.new ≡ files.old }
    // It doesn't give up by itself.
    ensures hub_fault { IsHubFault result → Rose (H.faults hub.old) (H.faults hub.new) }
    ensures read_fault { result ≡ SimEnd.ReadFault → Rose (F.read_faults files.old) (F.read_faults files.new) }
    ensures never_lost { ¬ (result ≡ SimEnd.Served ServeEnd.Lost) }
{
    simulate_so(alloc, task, None, hub, files)
}

/// The same of a modem that goes by the rules, if any were given.
pub(crate) fn simulate_so<H: Hub, F: Files>(
    alloc: Global,
    task: &SimTask,
    rules: Option<Rules>,
    hub: &mut H,
    files: &mut F,
) -> SimEnd
    ensures simulates { Simulates task.now.profile (asked_of task.now (option_map rules_view rules))
        (record { files = F.calls files.old; hub = H.calls hub.old })
        (record { files = F.calls files.new; hub = H.calls hub.new })
        result }
    ensures apart { task.now.profile ≡ None → files.new ≡ files.old }
    ensures hub_fault { IsHubFault result → Rose (H.faults hub.old) (H.faults hub.new) }
    ensures read_fault { result ≡ SimEnd.ReadFault → Rose (F.read_faults files.old) (F.read_faults files.new) }
    ensures read_later { F.read_faults files.old ≤ F.read_faults files.new }
    ensures never_lost { ¬ (result ≡ SimEnd.Served ServeEnd.Lost) }
{
    match &task.profile {
        None => simulate_default(alloc, task, rules, hub),
        Some(path) => match read_file(alloc, files, path.value().as_str()) {
            Ok(text) => simulate_text(alloc, task, rules, text.as_slice(), hub),
            Err(fault) => SimEnd::from(fault),
        },
    }
}

// Simulates a modem that has the default profile.
fn simulate_default<H: Hub>(
    alloc: Global,
    task: &SimTask,
    rules: Option<Rules>,
    hub: &mut H,
) -> SimEnd
    ensures serves { Since (H.calls hub.old) (H.calls hub.new) (ServesProfile (asked_of task.now (option_map rules_view rules)) default_profile result) }
    ensures own { ¬ (result ≡ SimEnd.ReadFault) }
    ensures never_lost { ¬ (result ≡ SimEnd.Served ServeEnd.Lost) }
    ensures hub_fault { IsHubFault result → Rose (H.faults hub.old) (H.faults hub.new) }
{
    match Profile::defaults(alloc) {
        Ok(profile) => {
            let end = serve_profile(alloc, task, rules, &profile, hub);
            drop(profile);
            end
        }
        Err(AllocError) => SimEnd::OutOfMemory,
    }
}

// Simulates a modem that has the profile of a text.
fn simulate_text<H: Hub>(
    alloc: Global,
    task: &SimTask,
    rules: Option<Rules>,
    text: &[u8],
    hub: &mut H,
) -> SimEnd
    ensures serves { Since (H.calls hub.old) (H.calls hub.new) (ServesRead (asked_of task.now (option_map rules_view rules)) (profile_in text.now) result) }
    ensures own { ¬ (result ≡ SimEnd.ReadFault) }
    ensures never_lost { ¬ (result ≡ SimEnd.Served ServeEnd.Lost) }
    ensures hub_fault { IsHubFault result → Rose (H.faults hub.old) (H.faults hub.new) }
{
    match read_profile(alloc, text) {
        Ok(profile) => {
            let end = serve_profile(alloc, task, rules, &profile, hub);
            drop(profile);
            end
        }
        Err(fault) => SimEnd::from(fault),
    }
}
