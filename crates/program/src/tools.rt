//! Each tool by itself, for a program that has no more of the outside than this tool needs.
ghost use Rattle.std.specs.Prelude.{◌≡◌, None, Ok, map, string_bytes};
ghost use Rattle.kit_io.specs.Causes.{Rose};
ghost use Rattle.kit_io.specs.Growth.{Grows};
ghost use Rattle.tool_words.specs.Command.{command_in};
ghost use Rattle.tool_words.specs.Rig.{IsWithinLimits};
ghost use Rattle.program.specs.Running.{Absent, FailsOnLink, LeavesAlone, Runs, RunsWords, is_of_proxy, is_of_pump, is_of_rig, is_of_simulator, is_of_tool, words_for};
ghost use Rattle.program.specs.Status.{line_of};
ghost use Rattle.program.specs.Watching.{Reported, SaysOfNode, kind_in, node_in};

use crate::proxy::proxy_modem;
use crate::pumping::pump_bytes;
use crate::report::{give_up, refuse_for, report};
use crate::rigging::{print_rig, print_transparency};
use crate::simulator::{keep_modem, simulate_modem, simulate_ruled_modem};
use crate::status::Status;
use crate::tables::ask_by_tables;
use crate::tool::{ask_mbim, ask_qmi, print_description, submit_text};
use crate::watching::{report_behind, tell_node, told_kind, told_node};
use child_io::Spawner;
use core_bench::Bench;
use file_io::{Complain, Files};
use hub_io::Hub;
use kit_io::Sink;
use link_io::Link;
use sim_task::SimTask;
use std::alloc::Global;
use tool_words::{ToolCommand, UsageKind, WordFault, command_of};
use watched_link::Watch;

// The words are those of another tool.
pub fn other_tool() -> Status
    ensures { result ≡ Status.Usage UsageKind.UnknownTool }
{
    Status::Usage {
        kind: UsageKind::UnknownTool,
    }
}

/// What `qmicli` and `mbimcli` do: as `run` with their words. The words of other tools are refused, as those of an
/// unknown one.
pub fn run_tool<O: Sink, E: Sink, L: Watch, P: Spawner, F: Files>(
    alloc: Global,
    words: &[String],
    out: &mut O,
    err: &mut E,
    link: &mut L,
    spawner: &mut P,
    files: &mut F,
) -> Status
    ensures runs { Runs (words_for is_of_tool (command_in (map string_bytes words.now)))
        (record { link = L.calls link.old; hub = None; spawner = P.calls spawner.old; files = F.calls files.old; out = O.taken out.old; bench = None; link_made = L.made link.old; hub_made = 0; out_made = O.made out.old })
        (record { link = L.calls link.new; hub = None; spawner = P.calls spawner.new; files = F.calls files.new; out = O.taken out.new; bench = None; link_made = L.made link.new; hub_made = 0; out_made = O.made out.new })
        result }
    ensures apart { LeavesAlone (words_for is_of_tool (command_in (map string_bytes words.now)))
        (record { link = link.old; hub = Absent; spawner = spawner.old; files = files.old; out = out.old; bench = Absent })
        (record { link = link.new; hub = Absent; spawner = spawner.new; files = files.new; out = out.new; bench = Absent }) }
    ensures link_fault { result ≡ Status.LinkFault → FailsOnLink (words_for is_of_tool (command_in (map string_bytes words.now))) L.faults L.open_faults link.old link.new }
    ensures start_fault { result ≡ Status.StartFault → Rose (P.faults spawner.old) (P.faults spawner.new) }
    ensures read_fault { result ≡ Status.ReadFault → Rose (F.read_faults files.old) (F.read_faults files.new) }
    ensures write_fault { result ≡ Status.WriteFault → Rose (O.faults out.old) (O.faults out.new) }
    ensures line { ¬ Rose (E.faults err.old) (E.faults err.new) → Reported (kind_in (words_for is_of_tool (command_in (map string_bytes words.now)))) (L.notes link.new).recorded result (E.taken err.old) (E.taken err.new) }
{
    match command_of(alloc, words) {
        Ok(command) => {
            let kind = told_kind(&command);
            let status = run_command_of_tool(alloc, command, out, link, spawner, files);
            report_behind(alloc, kind, link, &status, err);
            status
        }
        Err(WordFault::Usage(kind)) => refuse_for(kind, err),
        Err(WordFault::OutOfMemory) => give_up(err),
    }
}

// What a command of `qmicli` or `mbimcli` asks is done, and those of other tools are refused.
pub fn run_command_of_tool<O: Sink, L: Watch, P: Spawner, F: Files>(
    alloc: Global,
    command: ToolCommand,
    out: &mut O,
    link: &mut L,
    spawner: &mut P,
    files: &mut F,
) -> Status
    requires { IsWithinLimits command }
    ensures runs { RunsWords (words_for is_of_tool (Ok command))
        (record { link = L.calls link.old; hub = None; spawner = P.calls spawner.old; files = F.calls files.old; out = O.taken out.old; bench = None; link_made = L.made link.old; hub_made = 0; out_made = O.made out.old })
        (record { link = L.calls link.new; hub = None; spawner = P.calls spawner.new; files = F.calls files.new; out = O.taken out.new; bench = None; link_made = L.made link.new; hub_made = 0; out_made = O.made out.new })
        result }
    ensures apart { LeavesAlone (words_for is_of_tool (Ok command))
        (record { link = link.old; hub = Absent; spawner = spawner.old; files = files.old; out = out.old; bench = Absent })
        (record { link = link.new; hub = Absent; spawner = spawner.new; files = files.new; out = out.new; bench = Absent }) }
    ensures link_fault { result ≡ Status.LinkFault → FailsOnLink (words_for is_of_tool (Ok command)) L.faults L.open_faults link.old link.new }
    ensures start_fault { result ≡ Status.StartFault → Rose (P.faults spawner.old) (P.faults spawner.new) }
    ensures read_fault { result ≡ Status.ReadFault → Rose (F.read_faults files.old) (F.read_faults files.new) }
    ensures write_fault { result ≡ Status.WriteFault → Rose (O.faults out.old) (O.faults out.new) }
    ensures hub_fault { ¬ (result ≡ Status.HubFault) }
{
    match command {
        ToolCommand::Qmicli(task) => ask_qmi(alloc, task, out, link, spawner),
        ToolCommand::Mbimcli(task) => ask_mbim(alloc, task, out, link, spawner),
        ToolCommand::Request(task) => ask_by_tables(alloc, task, out, link, spawner, files),
        ToolCommand::PduSubmit {
            number,
            text,
            reference,
        } => submit_text(alloc, &number, &text, reference, out),
        ToolCommand::Describe { file, message } => {
            print_description(alloc, &file, message.as_ref(), out, files)
        }
        other => {
            drop(other);
            other_tool()
        }
    }
}

/// What `qmi-proxy` and `mbim-proxy` do: as `run` with their words. The words of other tools are refused, as those of an
/// unknown one.
pub fn run_proxy<E: Sink, H: Hub, P: Spawner>(
    alloc: Global,
    words: &[String],
    err: &mut E,
    hub: &mut H,
    spawner: &mut P,
) -> Status
    ensures runs { Runs (words_for is_of_proxy (command_in (map string_bytes words.now)))
        (record { link = None; hub = H.calls hub.old; spawner = P.calls spawner.old; files = None; out = None; bench = None; link_made = 0; hub_made = H.made hub.old; out_made = 0 })
        (record { link = None; hub = H.calls hub.new; spawner = P.calls spawner.new; files = None; out = None; bench = None; link_made = 0; hub_made = H.made hub.new; out_made = 0 })
        result }
    ensures apart { LeavesAlone (words_for is_of_proxy (command_in (map string_bytes words.now)))
        (record { link = Absent; hub = hub.old; spawner = spawner.old; files = Absent; out = Absent; bench = Absent })
        (record { link = Absent; hub = hub.new; spawner = spawner.new; files = Absent; out = Absent; bench = Absent }) }
    ensures start_fault { result ≡ Status.StartFault → Rose (P.faults spawner.old) (P.faults spawner.new) }
    ensures hub_fault { result ≡ Status.HubFault → Rose (H.faults hub.old) (H.faults hub.new) }
    ensures line { ¬ Rose (E.faults err.old) (E.faults err.new) → Grows (E.taken err.old) (line_of result) (E.taken err.new) }
{
    let status = match command_of(alloc, words) {
        Ok(command) => run_command_of_proxy(alloc, command, hub, spawner),
        Err(WordFault::Usage(kind)) => Status::Usage { kind },
        Err(WordFault::OutOfMemory) => Status::OutOfMemory,
    };
    report(&status, err);
    status
}

// The same for a command of a proxy.
pub fn run_command_of_proxy<H: Hub, P: Spawner>(
    alloc: Global,
    command: ToolCommand,
    hub: &mut H,
    spawner: &mut P,
) -> Status
    ensures runs { RunsWords (words_for is_of_proxy (Ok command))
        (record { link = None; hub = H.calls hub.old; spawner = P.calls spawner.old; files = None; out = None; bench = None; link_made = 0; hub_made = H.made hub.old; out_made = 0 })
        (record { link = None; hub = H.calls hub.new; spawner = P.calls spawner.new; files = None; out = None; bench = None; link_made = 0; hub_made = H.made hub.new; out_made = 0 })
        result }
    ensures apart { LeavesAlone (words_for is_of_proxy (Ok command))
        (record { link = Absent; hub = hub.old; spawner = spawner.old; files = Absent; out = Absent; bench = Absent })
        (record { link = Absent; hub = hub.new; spawner = spawner.new; files = Absent; out = Absent; bench = Absent }) }
    ensures start_fault { result ≡ Status.StartFault → Rose (P.faults spawner.old) (P.faults spawner.new) }
    ensures hub_fault { result ≡ Status.HubFault → Rose (H.faults hub.old) (H.faults hub.new) }
    ensures link_fault { ¬ (result ≡ Status.LinkFault) }
    ensures read_fault { ¬ (result ≡ Status.ReadFault) }
    ensures write_fault { ¬ (result ≡ Status.WriteFault) }
{
    match command {
        ToolCommand::Proxy(task) => {
            let status = proxy_modem(alloc, &task, hub, spawner);
            drop(task);
            status
        }
        other => {
            drop(other);
            other_tool()
        }
    }
}

/// What `modem-sim` does: as `run` with its words. The words of other tools are refused, as those of an unknown one.
pub fn run_simulator<E: Sink, H: Hub, P: Spawner, F: Files>(
    alloc: Global,
    words: &[String],
    err: &mut E,
    hub: &mut H,
    spawner: &mut P,
    files: &mut F,
) -> Status
    ensures runs { Runs (words_for is_of_simulator (command_in (map string_bytes words.now)))
        (record { link = None; hub = H.calls hub.old; spawner = P.calls spawner.old; files = F.calls files.old; out = None; bench = None; link_made = 0; hub_made = H.made hub.old; out_made = 0 })
        (record { link = None; hub = H.calls hub.new; spawner = P.calls spawner.new; files = F.calls files.new; out = None; bench = None; link_made = 0; hub_made = H.made hub.new; out_made = 0 })
        result }
    ensures apart { LeavesAlone (words_for is_of_simulator (command_in (map string_bytes words.now)))
        (record { link = Absent; hub = hub.old; spawner = spawner.old; files = files.old; out = Absent; bench = Absent })
        (record { link = Absent; hub = hub.new; spawner = spawner.new; files = files.new; out = Absent; bench = Absent }) }
    ensures start_fault { result ≡ Status.StartFault → Rose (P.faults spawner.old) (P.faults spawner.new) }
    ensures hub_fault { result ≡ Status.HubFault → Rose (H.faults hub.old) (H.faults hub.new) }
    ensures read_fault { result ≡ Status.ReadFault → Rose (F.read_faults files.old) (F.read_faults files.new) }
    ensures line { ¬ Rose (E.faults err.old) (E.faults err.new) → Grows (E.taken err.old) (line_of result) (E.taken err.new) }
{
    let status = match command_of(alloc, words) {
        Ok(command) => run_command_of_simulator(alloc, command, hub, spawner, files),
        Err(WordFault::Usage(kind)) => Status::Usage { kind },
        Err(WordFault::OutOfMemory) => Status::OutOfMemory,
    };
    report(&status, err);
    status
}

// The same for a command of a simulated modem.
pub fn run_command_of_simulator<H: Hub, P: Spawner, F: Files>(
    alloc: Global,
    command: ToolCommand,
    hub: &mut H,
    spawner: &mut P,
    files: &mut F,
) -> Status
    ensures runs { RunsWords (words_for is_of_simulator (Ok command))
        (record { link = None; hub = H.calls hub.old; spawner = P.calls spawner.old; files = F.calls files.old; out = None; bench = None; link_made = 0; hub_made = H.made hub.old; out_made = 0 })
        (record { link = None; hub = H.calls hub.new; spawner = P.calls spawner.new; files = F.calls files.new; out = None; bench = None; link_made = 0; hub_made = H.made hub.new; out_made = 0 })
        result }
    ensures apart { LeavesAlone (words_for is_of_simulator (Ok command))
        (record { link = Absent; hub = hub.old; spawner = spawner.old; files = files.old; out = Absent; bench = Absent })
        (record { link = Absent; hub = hub.new; spawner = spawner.new; files = files.new; out = Absent; bench = Absent }) }
    ensures start_fault { result ≡ Status.StartFault → Rose (P.faults spawner.old) (P.faults spawner.new) }
    ensures hub_fault { result ≡ Status.HubFault → Rose (H.faults hub.old) (H.faults hub.new) }
    ensures read_fault { result ≡ Status.ReadFault → Rose (F.read_faults files.old) (F.read_faults files.new) }
    ensures link_fault { ¬ (result ≡ Status.LinkFault) }
    ensures write_fault { ¬ (result ≡ Status.WriteFault) }
{
    match command {
        ToolCommand::Simulator {
            kind,
            socket,
            profile,
            rules,
            turns,
            keep,
        } => {
            let task = SimTask {
                kind,
                socket,
                profile,
                turns,
            };
            match (keep, rules) {
                (None, None) => simulate_modem(alloc, &task, hub, files),
                (None, Some(rules)) => simulate_ruled_modem(alloc, &task, &rules, hub, files),
                (Some(most), rules) => keep_modem(alloc, &task, rules.as_ref(), most, spawner),
            }
        }
        other => {
            drop(other);
            other_tool()
        }
    }
}

/// What `pump` does: as `run` with its words. The words of other tools are refused, as those of an unknown one.
pub fn run_pump<E: Sink, L: Link, F: Complain>(
    alloc: Global,
    words: &[String],
    err: &mut E,
    link: &mut L,
    files: &mut F,
) -> Status
    ensures runs { Runs (words_for is_of_pump (command_in (map string_bytes words.now)))
        (record { link = L.calls link.old; hub = None; spawner = None; files = F.calls files.old; out = None; bench = None; link_made = L.made link.old; hub_made = 0; out_made = 0 })
        (record { link = L.calls link.new; hub = None; spawner = None; files = F.calls files.new; out = None; bench = None; link_made = L.made link.new; hub_made = 0; out_made = 0 })
        result }
    ensures apart { LeavesAlone (words_for is_of_pump (command_in (map string_bytes words.now)))
        (record { link = link.old; hub = Absent; spawner = Absent; files = files.old; out = Absent; bench = Absent })
        (record { link = link.new; hub = Absent; spawner = Absent; files = files.new; out = Absent; bench = Absent }) }
    ensures link_fault { result ≡ Status.LinkFault → FailsOnLink (words_for is_of_pump (command_in (map string_bytes words.now))) L.faults L.open_faults link.old link.new }
    ensures read_fault { result ≡ Status.ReadFault → Rose (F.read_faults files.old) (F.read_faults files.new) }
    ensures write_fault { result ≡ Status.WriteFault → Rose (F.write_faults files.old) (F.write_faults files.new) }
    ensures line { ¬ Rose (E.faults err.old) (E.faults err.new) → SaysOfNode (node_in (command_in (map string_bytes words.now))) (F.words files.new) result (E.taken err.old) (E.taken err.new) }
{
    match command_of(alloc, words) {
        Ok(command) => {
            let Ok(node) = told_node(alloc, &command) else {
                drop(command);
                return give_up(err);
            };
            let status = run_command_of_pump(alloc, command, link, files);
            tell_node(node.as_ref(), files, &status, err);
            drop(node);
            report(&status, err);
            status
        }
        Err(WordFault::Usage(kind)) => refuse_for(kind, err),
        Err(WordFault::OutOfMemory) => give_up(err),
    }
}

// The same for a command of a pump.
pub fn run_command_of_pump<L: Link, F: Files>(
    alloc: Global,
    command: ToolCommand,
    link: &mut L,
    files: &mut F,
) -> Status
    ensures runs { RunsWords (words_for is_of_pump (Ok command))
        (record { link = L.calls link.old; hub = None; spawner = None; files = F.calls files.old; out = None; bench = None; link_made = L.made link.old; hub_made = 0; out_made = 0 })
        (record { link = L.calls link.new; hub = None; spawner = None; files = F.calls files.new; out = None; bench = None; link_made = L.made link.new; hub_made = 0; out_made = 0 })
        result }
    ensures apart { LeavesAlone (words_for is_of_pump (Ok command))
        (record { link = link.old; hub = Absent; spawner = Absent; files = files.old; out = Absent; bench = Absent })
        (record { link = link.new; hub = Absent; spawner = Absent; files = files.new; out = Absent; bench = Absent }) }
    ensures link_fault { result ≡ Status.LinkFault → FailsOnLink (words_for is_of_pump (Ok command)) L.faults L.open_faults link.old link.new }
    ensures read_fault { result ≡ Status.ReadFault → Rose (F.read_faults files.old) (F.read_faults files.new) }
    ensures write_fault { result ≡ Status.WriteFault → Rose (F.write_faults files.old) (F.write_faults files.new) }
    ensures hub_fault { ¬ (result ≡ Status.HubFault) }
    ensures start_fault { ¬ (result ≡ Status.StartFault) }
{
    match command {
        ToolCommand::Pump {
            read,
            node,
            bridge,
            ..
        } => pump_bytes(alloc, read, &node, &bridge, link, files),
        other => {
            drop(other);
            other_tool()
        }
    }
}

/// What `rig` does: as `run` with its words. The words of other tools are refused, as those of an unknown one.
pub fn run_rig<O: Sink, E: Sink, B: Bench>(
    alloc: Global,
    words: &[String],
    out: &mut O,
    err: &mut E,
    bench: &mut B,
) -> Status
    ensures runs { Runs (words_for is_of_rig (command_in (map string_bytes words.now)))
        (record { link = None; hub = None; spawner = None; files = None; out = O.taken out.old; bench = B.runs bench.old; link_made = 0; hub_made = 0; out_made = O.made out.old })
        (record { link = None; hub = None; spawner = None; files = None; out = O.taken out.new; bench = B.runs bench.new; link_made = 0; hub_made = 0; out_made = O.made out.new })
        result }
    ensures apart { LeavesAlone (words_for is_of_rig (command_in (map string_bytes words.now)))
        (record { link = Absent; hub = Absent; spawner = Absent; files = Absent; out = out.old; bench = bench.old })
        (record { link = Absent; hub = Absent; spawner = Absent; files = Absent; out = out.new; bench = bench.new }) }
    ensures write_fault { result ≡ Status.WriteFault → Rose (O.faults out.old) (O.faults out.new) }
    ensures line { ¬ Rose (E.faults err.old) (E.faults err.new) → Grows (E.taken err.old) (line_of result) (E.taken err.new) }
{
    let status = match command_of(alloc, words) {
        Ok(command) => run_command_of_rig(alloc, command, out, bench),
        Err(WordFault::Usage(kind)) => Status::Usage { kind },
        Err(WordFault::OutOfMemory) => Status::OutOfMemory,
    };
    report(&status, err);
    status
}

// The same for a command of a rig.
pub fn run_command_of_rig<O: Sink, B: Bench>(
    alloc: Global,
    command: ToolCommand,
    out: &mut O,
    bench: &mut B,
) -> Status
    requires { IsWithinLimits command }
    ensures runs { RunsWords (words_for is_of_rig (Ok command))
        (record { link = None; hub = None; spawner = None; files = None; out = O.taken out.old; bench = B.runs bench.old; link_made = 0; hub_made = 0; out_made = O.made out.old })
        (record { link = None; hub = None; spawner = None; files = None; out = O.taken out.new; bench = B.runs bench.new; link_made = 0; hub_made = 0; out_made = O.made out.new })
        result }
    ensures apart { LeavesAlone (words_for is_of_rig (Ok command))
        (record { link = Absent; hub = Absent; spawner = Absent; files = Absent; out = out.old; bench = bench.old })
        (record { link = Absent; hub = Absent; spawner = Absent; files = Absent; out = out.new; bench = bench.new }) }
    ensures write_fault { result ≡ Status.WriteFault → Rose (O.faults out.old) (O.faults out.new) }
    ensures link_fault { ¬ (result ≡ Status.LinkFault) }
    ensures start_fault { ¬ (result ≡ Status.StartFault) }
    ensures hub_fault { ¬ (result ≡ Status.HubFault) }
    ensures read_fault { ¬ (result ≡ Status.ReadFault) }
{
    match command {
        ToolCommand::Rig {
            kind,
            clients,
            messages,
            number,
        } => print_rig(alloc, kind, clients, messages, number, out, bench),
        ToolCommand::Transparency { kind } => print_transparency(alloc, kind, out, bench),
        other => {
            drop(other);
            other_tool()
        }
    }
}
