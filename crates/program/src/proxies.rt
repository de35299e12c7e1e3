ghost use Rattle.std.specs.Prelude.{◌≡◌, Ok, length, map, string_bytes, IfOk};
ghost use Rattle.kit_io.specs.Causes.{Rose};
ghost use Rattle.kit_io.specs.Growth.{Grows};
ghost use Rattle.tool_words.specs.Command.{command_in};
ghost use Rattle.program.specs.Several.{HasRoom, LeavesSeveralAlone, RunsSeveral, ServesSeveral};
ghost use Rattle.program.specs.Status.{IsOfProxy, line_of};

use crate::report::report;
use crate::status::Status;
use crate::tools::other_tool;
use child_io::Spawner;
use hub_io::Until;
use kit_io::Sink;
use many_io::ManyHub;
use many_runs::run_many;
use many_served::ManySettings;
use std::alloc::{AllocError, Global};
use tool_words::{ProxiesTask, ToolCommand, WordFault, command_of};

/// What `qmi-proxies` does: the devices of the words are served, each client as by a proxy of its own
/// device. The words of other tools are refused, as those of an unknown one. The hub has room for as
/// many devices as the words name (`device_count`).
#[tactic(auto, using(crate::proofs::Several::untouched))]
pub fn run_proxies<E: Sink, M: ManyHub, P: Spawner>(
    alloc: Global,
    words: &[String],
    err: &mut E,
    many: &mut M,
    spawner: &mut P,
) -> Status
    requires { HasRoom (command_in (map string_bytes words.now)) (M.devices many.old) }
    ensures several { RunsSeveral (command_in (map string_bytes words.now)) (M.calls many.old) (P.calls spawner.old) result (M.calls many.new) (M.made many.new) (P.calls spawner.new) }
    ensures apart { LeavesSeveralAlone (command_in (map string_bytes words.now)) many.old many.new }
    ensures hub_fault { result ≡ Status.HubFault → Rose (M.faults many.old) (M.faults many.new) }
    ensures start_fault { result ≡ Status.StartFault → Rose (P.faults spawner.old) (P.faults spawner.new) }
    ensures line { ¬ Rose (E.faults err.old) (E.faults err.new) → Grows (E.taken err.old) (line_of result) (E.taken err.new) }
{
    let status = match command_of(alloc, words) {
        Ok(command) => run_command_of_proxies(alloc, command, many, spawner),
        Err(WordFault::Usage(kind)) => Status::Usage { kind },
        Err(WordFault::OutOfMemory) => Status::OutOfMemory,
    };
    report(&status, err);
    status
}

// The same for a command of a proxy of several devices.
fn run_command_of_proxies<M: ManyHub, P: Spawner>(
    alloc: Global,
    command: ToolCommand,
    many: &mut M,
    spawner: &mut P,
) -> Status
    requires { HasRoom (Ok command) (M.devices many.old) }
    ensures several { RunsSeveral (Ok command) (M.calls many.old) (P.calls spawner.old) result (M.calls many.new) (M.made many.new) (P.calls spawner.new) }
    ensures apart { LeavesSeveralAlone (Ok command) many.old many.new }
    ensures hub_fault { result ≡ Status.HubFault → Rose (M.faults many.old) (M.faults many.new) }
    ensures start_fault { result ≡ Status.StartFault → Rose (P.faults spawner.old) (P.faults spawner.new) }
{
    match command {
        ToolCommand::Proxies(task) => {
            let status = proxy_modems(alloc, &task, many, spawner);
            drop(task);
            status
        }
        other => {
            drop(other);
            other_tool()
        }
    }
}

// Serves several devices to the clients of a socket as the words of a proxy want it, over a bridge
// each where they are nodes.
pub fn proxy_modems<M: ManyHub, P: Spawner>(
    alloc: Global,
    task: &ProxiesTask,
    many: &mut M,
    spawner: &mut P,
) -> Status
    requires { M.devices many.old ≡ length task.now.devices }
    ensures serves { ServesSeveral task.now (M.calls many.old) (P.calls spawner.old) result (M.calls many.new) (M.made many.new) (P.calls spawner.new) }
    ensures own { IsOfProxy result }
    ensures hub_fault { result ≡ Status.HubFault → Rose (M.faults many.old) (M.faults many.new) }
    ensures start_fault { result ≡ Status.StartFault → Rose (P.faults spawner.old) (P.faults spawner.new) }
{
    let settings = ManySettings {
        devices: task.devices.as_slice(),
        time: task.time,
        release: task.release,
        until: Until {
            empty: task.empty,
            lost: false,
        },
        turns: task.turns,
    };
    let run = run_many(
        alloc,
        task.socket.value().as_str(),
        task.bridge.value().as_str(),
        &settings,
        many,
        spawner,
    );
    Status::from(run.end).with_stops(run.stopped)
}

/// For how many devices the hub of several has to have room where these are the words.
pub fn device_count(alloc: Global, words: &[String]) -> Result<usize, AllocError>
    ensures { IfOk result (λ count. HasRoom (command_in (map string_bytes words.now)) count) }
{
    match command_of(alloc, words) {
        Ok(ToolCommand::Proxies(task)) => Ok(task.devices.as_slice().len()),
        Ok(other) => {
            drop(other);
            Ok(1)
        }
        Err(WordFault::Usage(_)) => Ok(1),
        Err(WordFault::OutOfMemory) => Err(AllocError),
    }
}
