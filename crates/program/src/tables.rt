ghost use Rattle.std.specs.Prelude.{◌≡◌, ◌≤◌, length};
ghost use Rattle.std.specs.List.{AllByRecursion};
ghost use Rattle.kit_io.specs.Causes.{Rose};
ghost use Rattle.kit_io.specs.Counts.{together};
ghost use Rattle.message_tables.specs.View.{message_view, messages_in};
ghost use Rattle.message_tables.specs.WellMade.{IsSoundMessage};
ghost use Rattle.modem_routes.specs.Reaching.{LinkFails};
ghost use Rattle.modem_routes.specs.Routes.{path_in};
ghost use Rattle.tool_runs.specs.Tables.{asked_by_tables};
ghost use Rattle.table_following.specs.Following.{FollowsModem};
ghost use Rattle.program.specs.Status.{EndsAs, IsOfTool, status_of};
ghost use Rattle.program.specs.Tables.{AsksByTables, FollowsByTables, follow_plan, table_plan};
ghost use Rattle.program.specs.Routes.{Asks, Follows, route_to};

use crate::status::Status;
use crate::tool::{Destination, ask_device, route_to, watch_if};
use child_io::Spawner;
use file_io::Files;
use kit_io::Sink;
use message_tables::Message;
use modem_routes::Route;
use qmux_frame::LONGEST_TLVS;
use request_session::{RequestPlan, TlvRequest};
use sms_print::Decoding;
use std::alloc::Global;
use table_following::{FollowPlan, follow_modem, indications_in_file};
use table_requests::{Asked, TablePlan, request_in_file};
use tool_runs::ShownPlan;
use tool_words::{LinkSettings, RequestTask};
use watched_link::Watch;

// Asks a QMI modem for a message that a file describes, and prints its answer by the same description,
// and, where the words want them, the indications that come behind it.
pub fn ask_by_tables<O: Sink, L: Watch, P: Spawner, F: Files>(
    alloc: Global,
    task: RequestTask,
    out: &mut O,
    link: &mut L,
    spawner: &mut P,
    files: &mut F,
) -> Status
    ensures asks { AsksByTables task (F.calls files.old) (F.calls files.new)
        (record { link = L.calls link.old; spawner = P.calls spawner.old; out = O.taken out.old; made = together (L.made link.old) (O.made out.old) })
        (record { link = L.calls link.new; spawner = P.calls spawner.new; out = O.taken out.new; made = together (L.made link.new) (O.made out.new) })
        result }
    ensures own { IsOfTool result }
    ensures link_fault { result ≡ Status.LinkFault → LinkFails (route_to task.device task.link) L.faults L.open_faults link.old link.new }
    ensures start_fault { result ≡ Status.StartFault → Rose (P.faults spawner.old) (P.faults spawner.new) }
    ensures read_fault { result ≡ Status.ReadFault → Rose (F.read_faults files.old) (F.read_faults files.new) }
    ensures write_fault { result ≡ Status.WriteFault → Rose (O.faults out.old) (O.faults out.new) }
{
    match task.follow {
        None => match request_in_file(alloc, files, &task.tables, &task.message, &task.input) {
            Ok(asked) => ask_with(alloc, task, asked, out, link, spawner),
            Err(none) => {
                drop(task);
                Status::from(none)
            }
        },
        Some(turns) => follow_by_tables(alloc, task, turns, out, link, spawner, files),
    }
}

// Asks the modem with the request that the file gives.
fn ask_with<O: Sink, L: Watch, P: Spawner>(
    alloc: Global,
    task: RequestTask,
    asked: Asked,
    out: &mut O,
    link: &mut L,
    spawner: &mut P,
) -> Status
    requires short { length asked.tlvs ≤ LONGEST_TLVS }
    requires sound { IsSoundMessage (message_view asked.message) }
    ensures asks { Asks (route_to task.device task.link) (asked_by_tables (table_plan task asked))
        (record { link = L.calls link.old; spawner = P.calls spawner.old; out = O.taken out.old; made = together (L.made link.old) (O.made out.old) })
        (record { link = L.calls link.new; spawner = P.calls spawner.new; out = O.taken out.new; made = together (L.made link.new) (O.made out.new) })
        result }
    ensures own { IsOfTool result }
    ensures read_fault { ¬ (result ≡ Status.ReadFault) }
    ensures link_fault { result ≡ Status.LinkFault → LinkFails (route_to task.device task.link) L.faults L.open_faults link.old link.new }
    ensures start_fault { result ≡ Status.StartFault → Rose (P.faults spawner.old) (P.faults spawner.new) }
    ensures write_fault { result ≡ Status.WriteFault → Rose (O.faults out.old) (O.faults out.new) }
{
    let (settings, plan) = plan_of(task, asked);
    let to = Destination {
        device: &plan.session().device,
        settings: &settings,
    };
    let asked = ShownPlan {
        plan: &plan,
        decoding: Decoding::Nothing,
    };
    let status = ask_device(alloc, to, &asked, out, link, spawner);
    drop(plan);
    status
}

// Reads the indications that the file tells, and follows them behind the answer.
fn follow_by_tables<O: Sink, L: Watch, P: Spawner, F: Files>(
    alloc: Global,
    task: RequestTask,
    turns: u64,
    out: &mut O,
    link: &mut L,
    spawner: &mut P,
    files: &mut F,
) -> Status
    ensures follows { FollowsByTables task turns (F.calls files.old) (F.calls files.new)
        (record { link = L.calls link.old; spawner = P.calls spawner.old; out = O.taken out.old; made = together (L.made link.old) (O.made out.old) })
        (record { link = L.calls link.new; spawner = P.calls spawner.new; out = O.taken out.new; made = together (L.made link.new) (O.made out.new) })
        result }
    ensures own { IsOfTool result }
    ensures link_fault { result ≡ Status.LinkFault → LinkFails (route_to task.device task.link) L.faults L.open_faults link.old link.new }
    ensures start_fault { result ≡ Status.StartFault → Rose (P.faults spawner.old) (P.faults spawner.new) }
    ensures read_fault { result ≡ Status.ReadFault → Rose (F.read_faults files.old) (F.read_faults files.new) }
    ensures write_fault { result ≡ Status.WriteFault → Rose (O.faults out.old) (O.faults out.new) }
{
    let told = match indications_in_file(alloc, files, &task.tables) {
        Ok(told) => told,
        Err(none) => {
            drop(task);
            return Status::from(none);
        }
    };
    match request_in_file(alloc, files, &task.tables, &task.message, &task.input) {
        Ok(asked) => {
            let following = FollowTask {
                task,
                asked,
                told,
                turns,
            };
            follow_with(alloc, following, out, link, spawner)
        }
        Err(none) => {
            drop((task, told));
            Status::from(none)
        }
    }
}

// What the words ask for, the request that the file gives for it, and the indications that are
// followed behind its answer, for so many turns.
#[derive(Drop)]
struct FollowTask {
    task: RequestTask,
    asked: Asked,
    told: Vec<Message>,
    turns: u64,
}

// Follows them behind the answer to this request.
fn follow_with<O: Sink, L: Watch, P: Spawner>(
    alloc: Global,
    following: FollowTask,
    out: &mut O,
    link: &mut L,
    spawner: &mut P,
) -> Status
    requires short { length following.asked.tlvs ≤ LONGEST_TLVS }
    requires sound { IsSoundMessage (message_view following.asked.message) }
    requires told_sound { AllByRecursion IsSoundMessage (messages_in following.told.items) }
    ensures follows { Follows (route_to following.task.device following.task.link) (follow_plan following.task following.asked following.told.items following.turns)
        (record { link = L.calls link.old; spawner = P.calls spawner.old; out = O.taken out.old; made = together (L.made link.old) (O.made out.old) })
        (record { link = L.calls link.new; spawner = P.calls spawner.new; out = O.taken out.new; made = together (L.made link.new) (O.made out.new) })
        result }
    ensures own { IsOfTool result }
    ensures read_fault { ¬ (result ≡ Status.ReadFault) }
    ensures link_fault { result ≡ Status.LinkFault → LinkFails (route_to following.task.device following.task.link) L.faults L.open_faults link.old link.new }
    ensures start_fault { result ≡ Status.StartFault → Rose (P.faults spawner.old) (P.faults spawner.new) }
    ensures write_fault { result ≡ Status.WriteFault → Rose (O.faults out.old) (O.faults out.new) }
{
    if watch_if(following.task.link.verbose, link).is_err() {
        drop(following);
        return Status::OutOfMemory;
    }
    let Ok(route) = route_to(alloc, &following.task.device, &following.task.link) else {
        drop(following);
        return Status::OutOfMemory;
    };
    let (settings, plan) = plan_of(following.task, following.asked);
    drop(settings);
    let plan = FollowPlan::new(plan, following.told, following.turns);
    let status = follow_on(alloc, &route, &plan, out, link, spawner);
    drop(plan);
    status
}

// Follows them on this route.
fn follow_on<O: Sink, L: Watch, P: Spawner>(
    alloc: Global,
    route: &Route,
    plan: &FollowPlan,
    out: &mut O,
    link: &mut L,
    spawner: &mut P,
) -> Status
    ensures follows { EndsAs status_of result (λ ends. FollowsModem (path_in route.now) plan.now
        (record { link = L.calls link.old; spawner = P.calls spawner.old; out = O.taken out.old; made = together (L.made link.old) (O.made out.old) })
        (record { link = L.calls link.new; spawner = P.calls spawner.new; out = O.taken out.new; made = together (L.made link.new) (O.made out.new) })
        ends) }
    ensures own { IsOfTool result }
    ensures read_fault { ¬ (result ≡ Status.ReadFault) }
    ensures link_fault { result ≡ Status.LinkFault → LinkFails (path_in route.now) L.faults L.open_faults link.old link.new }
    ensures start_fault { result ≡ Status.StartFault → Rose (P.faults spawner.old) (P.faults spawner.new) }
    ensures write_fault { result ≡ Status.WriteFault → Rose (O.faults out.old) (O.faults out.new) }
{
    Status::from(follow_modem(alloc, route, plan, out, link, spawner))
}

// The link's settings, and the plan of the request that the file gives.
fn plan_of(task: RequestTask, asked: Asked) -> (LinkSettings, TablePlan)
    requires short { length asked.tlvs ≤ LONGEST_TLVS }
    requires sound { IsSoundMessage (message_view asked.message) }
    ensures settings { result.0 ≡ task.link }
    ensures plan { result.1 ≡ table_plan task asked }
{
    let settings = task.link;
    let request = TlvRequest {
        service: asked.message.service,
        message: asked.message.id,
        tlvs: asked.tlvs,
    };
    let session = RequestPlan {
        device: task.device,
        proxied: settings.proxied,
        cid: task.cid,
        keep: task.keep,
        timeout: settings.timeout,
        request,
    };
    let plan = TablePlan::new(session, asked.message, task.json);
    (settings, plan)
}
