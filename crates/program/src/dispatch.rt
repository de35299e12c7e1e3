ghost use Rattle.std.specs.Prelude.{◌≡◌, ◌⊎◌, Ok, map, string_bytes};
ghost use Rattle.kit_io.specs.Causes.{Rose};
ghost use Rattle.kit_io.specs.Growth.{Grows};
ghost use Rattle.tool_words.specs.Command.{command_in};
ghost use Rattle.tool_words.specs.Rig.{IsWithinLimits};
ghost use Rattle.program.specs.Running.{CommandFailsOnLink, CommandLeavesAlone, FailsOnLink, LeavesAlone, Runs, RunsCommand};
ghost use Rattle.program.specs.Several.{FailsOnHub, HasRoom, LeavesSeveralAlone, ServesIfSeveral};
ghost use Rattle.program.specs.Watching.{ReportedWhole};

use crate::dissecting::dissect_capture;
use crate::proxies::proxy_modems;
use crate::report::{give_up, refuse_for};
use crate::status::Status;
use crate::telling::tell_version;
use crate::tools::{
    run_command_of_proxy, run_command_of_pump, run_command_of_rig, run_command_of_simulator,
    run_command_of_tool,
};
use crate::watching::{report_behind, tell_node, told_kind, told_node};
use child_io::Spawner;
use core_bench::Bench;
use file_io::{Complain, Files};
use hub_io::Hub;
use kit_io::Sink;
use many_io::ManyHub;
use std::alloc::Global;
use tool_words::{ToolCommand, WordFault, command_of};
use watched_link::Watch;

/// Does all that the program does: what the words ask, as a tool, a proxy, a simulated modem, a pump
/// or a rig, showing a captured stream, or telling its version. The program ends with the status.
///
/// The hub of several devices has room for as many as the words name, where they name several
/// (`device_count`).
#[tactic(auto, using(crate::proofs::Several::untouched))]
pub fn run<O: Sink, E: Sink, L: Watch, H: Hub, M: ManyHub, P: Spawner, F: Complain, B: Bench>(
    alloc: Global,
    words: &[String],
    out: &mut O,
    err: &mut E,
    link: &mut L,
    hub: &mut H,
    many: &mut M,
    spawner: &mut P,
    files: &mut F,
    bench: &mut B,
) -> Status
    requires { HasRoom (command_in (map string_bytes words.now)) (M.devices many.old) }

    // What the words ask for is done, or they are refused.
    ensures runs { Runs (command_in (map string_bytes words.now))
        (record { link = L.calls link.old; hub = H.calls hub.old; spawner = P.calls spawner.old; files = F.calls files.old; out = O.taken out.old; bench = B.runs bench.old; link_made = L.made link.old; hub_made = H.made hub.old; out_made = O.made out.old })
        (record { link = L.calls link.new; hub = H.calls hub.new; spawner = P.calls spawner.new; files = F.calls files.new; out = O.taken out.new; bench = B.runs bench.new; link_made = L.made link.new; hub_made = H.made hub.new; out_made = O.made out.new })
        result }
    ensures apart { LeavesAlone (command_in (map string_bytes words.now))
        (record { link = link.old; hub = hub.old; spawner = spawner.old; files = files.old; out = out.old; bench = bench.old })
        (record { link = link.new; hub = hub.new; spawner = spawner.new; files = files.new; out = out.new; bench = bench.new }) }

    // Several devices are served on their own hub: each client as by a proxy of its device alone.
    ensures several { ServesIfSeveral (command_in (map string_bytes words.now)) (M.calls many.old) (P.calls spawner.old) result (M.calls many.new) (M.made many.new) (P.calls spawner.new) }
    ensures several_apart { LeavesSeveralAlone (command_in (map string_bytes words.now)) many.old many.new }

    // It doesn't give up by itself.
    ensures link_fault { result ≡ Status.LinkFault → FailsOnLink (command_in (map string_bytes words.now)) L.faults L.open_faults link.old link.new }
    ensures start_fault { result ≡ Status.StartFault → Rose (P.faults spawner.old) (P.faults spawner.new) }
    ensures hub_fault { result ≡ Status.HubFault → FailsOnHub (command_in (map string_bytes words.now)) (H.faults hub.old) (H.faults hub.new) (M.faults many.old) (M.faults many.new) }
    ensures read_fault { result ≡ Status.ReadFault → Rose (F.read_faults files.old) (F.read_faults files.new) }
    ensures write_fault { result ≡ Status.WriteFault → Rose (O.faults out.old) (O.faults out.new) ⊎ Rose (F.write_faults files.old) (F.write_faults files.new) }

    // A line tells of an error, behind the lines of what went over the link, or why a pump's node failed,
    // where the words want them, unless it can't be written.
    ensures line { ¬ Rose (E.faults err.old) (E.faults err.new) → ReportedWhole (command_in (map string_bytes words.now)) (L.notes link.new).recorded (F.words files.new) result (E.taken err.old) (E.taken err.new) }
{
    match command_of(alloc, words) {
        Ok(command) => {
            let kind = told_kind(&command);
            let Ok(node) = told_node(alloc, &command) else {
                drop(command);
                return give_up(err);
            };
            let status = run_command(alloc, command, out, link, hub, many, spawner, files, bench);
            tell_node(node.as_ref(), files, &status, err);
            drop(node);
            report_behind(alloc, kind, link, &status, err);
            status
        }
        Err(WordFault::Usage(kind)) => refuse_for(kind, err),
        Err(WordFault::OutOfMemory) => give_up(err),
    }
}

// Does what a command asks.
fn run_command<O: Sink, L: Watch, H: Hub, M: ManyHub, P: Spawner, F: Files, B: Bench>(
    alloc: Global,
    command: ToolCommand,
    out: &mut O,
    link: &mut L,
    hub: &mut H,
    many: &mut M,
    spawner: &mut P,
    files: &mut F,
    bench: &mut B,
) -> Status
    requires limits { IsWithinLimits command }
    requires room { HasRoom (Ok command) (M.devices many.old) }
    ensures runs { RunsCommand command
        (record { link = L.calls link.old; hub = H.calls hub.old; spawner = P.calls spawner.old; files = F.calls files.old; out = O.taken out.old; bench = B.runs bench.old; link_made = L.made link.old; hub_made = H.made hub.old; out_made = O.made out.old })
        (record { link = L.calls link.new; hub = H.calls hub.new; spawner = P.calls spawner.new; files = F.calls files.new; out = O.taken out.new; bench = B.runs bench.new; link_made = L.made link.new; hub_made = H.made hub.new; out_made = O.made out.new })
        result }
    ensures apart { CommandLeavesAlone command
        (record { link = link.old; hub = hub.old; spawner = spawner.old; files = files.old; out = out.old; bench = bench.old })
        (record { link = link.new; hub = hub.new; spawner = spawner.new; files = files.new; out = out.new; bench = bench.new }) }
    ensures several { ServesIfSeveral (Ok command) (M.calls many.old) (P.calls spawner.old) result (M.calls many.new) (M.made many.new) (P.calls spawner.new) }
    ensures several_apart { LeavesSeveralAlone (Ok command) many.old many.new }
    ensures link_fault { result ≡ Status.LinkFault → CommandFailsOnLink command L.faults L.open_faults link.old link.new }
    ensures start_fault { result ≡ Status.StartFault → Rose (P.faults spawner.old) (P.faults spawner.new) }
    ensures hub_fault { result ≡ Status.HubFault → FailsOnHub (Ok command) (H.faults hub.old) (H.faults hub.new) (M.faults many.old) (M.faults many.new) }
    ensures read_fault { result ≡ Status.ReadFault → Rose (F.read_faults files.old) (F.read_faults files.new) }
    ensures write_fault { result ≡ Status.WriteFault → Rose (O.faults out.old) (O.faults out.new) ⊎ Rose (F.write_faults files.old) (F.write_faults files.new) }
{
    match command {
        ToolCommand::Qmicli(_)
        | ToolCommand::Mbimcli(_)
        | ToolCommand::Request(_)
        | ToolCommand::PduSubmit { .. }
        | ToolCommand::Describe { .. } => {
            run_command_of_tool(alloc, command, out, link, spawner, files)
        }
        ToolCommand::Proxy(_) => run_command_of_proxy(alloc, command, hub, spawner),
        ToolCommand::Proxies(task) => {
            let status = proxy_modems(alloc, &task, many, spawner);
            drop(task);
            status
        }
        ToolCommand::Simulator { .. } => {
            run_command_of_simulator(alloc, command, hub, spawner, files)
        }
        ToolCommand::Pump { .. } => run_command_of_pump(alloc, command, link, files),
        ToolCommand::Rig { .. } | ToolCommand::Transparency { .. } => {
            run_command_of_rig(alloc, command, out, bench)
        }
        ToolCommand::Dissect {
            kind,
            tables,
            turns,
            capture,
        } => dissect_capture(alloc, kind, tables.as_ref(), turns, &capture, out, files),
        ToolCommand::Version => tell_version(out),
    }
}
