ghost use Rattle.std.specs.Prelude.{◌≡◌, ◌≤◌};
ghost use Rattle.kit_io.specs.Causes.{Rose};
ghost use Rattle.modem_rules.specs.Reading.{rules_in};
ghost use Rattle.sim_runs.specs.Simulating.{IsHubFault, SimulatesByRules, SimulatesByText, end_of_rules_file};

use crate::SimEnd;
use crate::simulating::simulate_so;
use file_io::{FileFault, Files, read_file};
use hub_io::{Hub, ServeEnd};
use kit_bytes::PathText;
use modem_rules::read_rules;
use sim_task::SimTask;
use std::alloc::Global;

/// Simulates a modem that goes by the rules of the file at a path.
///
/// The rules are read first. Where they can't be read or aren't rules for a modem of this kind,
/// nothing else is touched. Else it goes on as without them.
pub fn simulate_by_rules<H: Hub, F: Files>(
    alloc: Global,
    task: &SimTask,
    rules: &PathText,
    hub: &mut H,
    files: &mut F,
) -> SimEnd
    ensures simulates { SimulatesByRules rules.now task.now.profile task.now.kind task.now.socket task.now.turns
        (record { files = F.calls files.old; hub = H.calls hub.old })
        (record { files = F.calls files.new; hub = H.calls hub.new })
        result }
    ensures hub_fault { IsHubFault result → Rose (H.faults hub.old) (H.faults hub.new) }
    ensures read_fault { result ≡ SimEnd.ReadFault → Rose (F.read_faults files.old) (F.read_faults files.new) }
    ensures never_lost { ¬ (result ≡ SimEnd.Served ServeEnd.Lost) }
{
    match read_file(alloc, files, rules.value().as_str()) {
        Ok(text) => by_text(alloc, task, text.as_slice(), hub, files),
        Err(fault) => end_of_rules_file(fault),
    }
}

// Simulates a modem that goes by the rules of a text.
fn by_text<H: Hub, F: Files>(
    alloc: Global,
    task: &SimTask,
    text: &[u8],
    hub: &mut H,
    files: &mut F,
) -> SimEnd
    ensures simulates { SimulatesByText (rules_in task.now.kind text.now) task.now.profile task.now.kind task.now.socket task.now.turns
        (record { files = F.calls files.old; hub = H.calls hub.old })
        (record { files = F.calls files.new; hub = H.calls hub.new })
        result }
    ensures hub_fault { IsHubFault result → Rose (H.faults hub.old) (H.faults hub.new) }
    ensures read_fault { result ≡ SimEnd.ReadFault → Rose (F.read_faults files.old) (F.read_faults files.new) }
    ensures read_later { F.read_faults files.old ≤ F.read_faults files.new }
    ensures never_lost { ¬ (result ≡ SimEnd.Served ServeEnd.Lost) }
{
    match read_rules(alloc, task.kind, text) {
        Ok(rules) => simulate_so(alloc, task, Some(rules), hub, files),
        Err(fault) => SimEnd::from(fault),
    }
}

// How it ends where the file of the rules isn't read.
fn end_of_rules_file(fault: FileFault) -> SimEnd
    ensures { result ≡ end_of_rules_file fault }
{
    match fault {
        FileFault::ReadFault => SimEnd::ReadFault,
        FileFault::Long => SimEnd::RulesFault(None),
        FileFault::OutOfMemory => SimEnd::OutOfMemory,
    }
}
