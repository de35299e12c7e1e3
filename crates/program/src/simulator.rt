ghost use Rattle.std.specs.Prelude.{◌≡◌, None};
ghost use Rattle.std.specs.Option.{option_copied};
ghost use Rattle.kit_io.specs.Causes.{Rose};
ghost use Rattle.sim_supervision.specs.Supervision.{SupervisesOrLacksMemory};
ghost use Rattle.sim_supervision.specs.Words.{start_words};
ghost use Rattle.sim_runs.specs.Simulating.{Simulates, SimulatesByRules, asked_in};
ghost use Rattle.program.specs.Status.{EndsAs, IsOfKeeping, IsOfSimulator, status_of_keeping, status_of_sim};

use crate::status::Status;
use child_io::Spawner;
use file_io::Files;
use hub_io::Hub;
use kit_bytes::PathText;
use sim_runs::{simulate, simulate_by_rules};
use sim_supervision::supervise_simulator;
use sim_task::SimTask;
use std::alloc::Global;

// Simulates a modem to the clients of a socket.
pub fn simulate_modem<H: Hub, F: Files>(
    alloc: Global,
    task: &SimTask,
    hub: &mut H,
    files: &mut F,
) -> Status
    ensures simulates { EndsAs status_of_sim result (λ ends. Simulates task.now.profile (asked_in task.now.kind task.now.socket task.now.turns)
        (record { files = F.calls files.old; hub = H.calls hub.old })
        (record { files = F.calls files.new; hub = H.calls hub.new })
        ends) }
    ensures apart { task.now.profile ≡ None → files.new ≡ files.old }
    ensures own { IsOfSimulator result }
    ensures hub_fault { result ≡ Status.HubFault → Rose (H.faults hub.old) (H.faults hub.new) }
    ensures read_fault { result ≡ Status.ReadFault → Rose (F.read_faults files.old) (F.read_faults files.new) }
{
    Status::from(simulate(alloc, task, hub, files))
}

// Simulates one that goes by the rules of a file.
pub fn simulate_ruled_modem<H: Hub, F: Files>(
    alloc: Global,
    task: &SimTask,
    rules: &PathText,
    hub: &mut H,
    files: &mut F,
) -> Status
    ensures simulates { EndsAs status_of_sim result (λ ends. SimulatesByRules rules.now task.now.profile task.now.kind task.now.socket task.now.turns
        (record { files = F.calls files.old; hub = H.calls hub.old })
        (record { files = F.calls files.new; hub = H.calls hub.new })
        ends) }
    ensures own { IsOfSimulator result }
    ensures hub_fault { result ≡ Status.HubFault → Rose (H.faults hub.old) (H.faults hub.new) }
    ensures read_fault { result ≡ Status.ReadFault → Rose (F.read_faults files.old) (F.read_faults files.new) }
{
    Status::from(simulate_by_rules(alloc, task, rules, hub, files))
}

// Supervises a simulated modem, as a child that is started so often at most.
pub fn keep_modem<P: Spawner>(
    alloc: Global,
    task: &SimTask,
    rules: Option<&PathText>,
    most: u8,
    spawner: &mut P,
) -> Status
    ensures keeps { EndsAs status_of_keeping result (λ ends. SupervisesOrLacksMemory (start_words task.now.kind task.now.socket task.now.turns task.now.profile (option_copied rules.entry)) most (P.calls spawner.old) ends (P.calls spawner.new)) }
    ensures own { IsOfKeeping result }
    ensures start_fault { result ≡ Status.StartFault → Rose (P.faults spawner.old) (P.faults spawner.new) }
{
    Status::from(supervise_simulator(alloc, task, rules, most, spawner))
}
