ghost use Rattle.std.specs.Prelude.{◌≡◌, false, IfOk, IsTrue};
ghost use Rattle.std.specs.Option.{option_copied};
ghost use Rattle.std.specs.Str.{encode_utf8_all};
ghost use Rattle.kit_io.specs.Causes.{Rose};
ghost use Rattle.kit_io.specs.Counts.{together};
ghost use Rattle.modem_routes.specs.Reaching.{LinkFails};
ghost use Rattle.modem_routes.specs.Routes.{path_in};
ghost use Rattle.sms_pdu.specs.Parts.{can_be_sent, messages};
ghost use Rattle.sms_print.specs.Printed.{hex_lines};
ghost use Rattle.tool_runs.specs.Asking.{AsksModem, asked_of, PrintsText, shown};
ghost use Rattle.tool_runs.specs.Describing.{DescribesFile};
ghost use Rattle.program.specs.Running.{asked_in_form, AsksQmi, mbim_asked_in, qmi_plan, mbim_plan};
ghost use Rattle.program.specs.Routes.{Asks, route_to};
ghost use Rattle.program.specs.Status.{IsOfTool, EndsAs, status_of};

use crate::status::Status;
use child_io::Spawner;
use device_core::QmiPlan;
use file_io::Files;
use kit_bytes::{Kind, PathText, ShortText, Text};
use kit_io::Sink;
use mbim_session::MbimPlan;
use modem_routes::Route;
use sms_print::Decoding;
use std::alloc::{AllocError, Global};
use tool_runs::{
    JsonPlan, JsonSession, Session, ShownPlan, TunnelPlan, ask, describe_file, mbim_decoding,
    submit,
};
use tool_words::{AnswerForm, LinkSettings, MbimTask, QmiTask};
use watched_link::Watch;

// Where the modem is that a tool asks.
#[derive(Clone, Copy)]
pub struct Destination<'a> {
    pub device: &'a PathText,
    pub settings: &'a LinkSettings,
}

// The route of a tool to the device of its modem.
pub fn route_to(
    alloc: Global,
    device: &PathText,
    settings: &LinkSettings,
) -> Result<Route, AllocError>
    ensures { IfOk result (λ route. path_in route ≡ route_to device.now settings.now) }
{
    let device = device.value().as_str();
    let bridge = settings.bridge.value().as_str();
    if settings.proxied {
        let socket = settings.socket.value().as_str();
        return Route::by_proxy(alloc, settings.kind, device, socket, bridge);
    }
    Route::direct(alloc, device, bridge, settings.verbose)
}

// Asks a QMI modem what the words of `qmicli` want, over the link that leads to it, or to the MBIM modem
// that carries its messages.
pub fn ask_qmi<O: Sink, L: Watch, P: Spawner>(
    alloc: Global,
    task: QmiTask,
    out: &mut O,
    link: &mut L,
    spawner: &mut P,
) -> Status
    ensures asks { AsksQmi task.link.kind task.form (qmi_plan task) (route_to task.device task.link)
        (record { link = L.calls link.old; spawner = P.calls spawner.old; out = O.taken out.old; made = together (L.made link.old) (O.made out.old) })
        (record { link = L.calls link.new; spawner = P.calls spawner.new; out = O.taken out.new; made = together (L.made link.new) (O.made out.new) })
        result }
    ensures own { IsOfTool result }
    ensures link_fault { result ≡ Status.LinkFault → LinkFails (route_to task.device task.link) L.faults L.open_faults link.old link.new }
    ensures start_fault { result ≡ Status.StartFault → Rose (P.faults spawner.old) (P.faults spawner.new) }
    ensures write_fault { result ≡ Status.WriteFault → Rose (O.faults out.old) (O.faults out.new) }
{
    let settings = task.link;
    let plan = QmiPlan {
        device: task.device,
        proxied: settings.proxied,
        cid: task.cid,
        keep: task.keep,
        timeout: settings.timeout,
        request: task.request,
    };
    ask_of_kind(alloc, plan, &settings, task.form, out, link, spawner)
}

// Asks a QMI modem at a device of its own, or inside the MBIM modem at one.
fn ask_of_kind<O: Sink, L: Watch, P: Spawner>(
    alloc: Global,
    plan: QmiPlan,
    settings: &LinkSettings,
    form: AnswerForm,
    out: &mut O,
    link: &mut L,
    spawner: &mut P,
) -> Status
    ensures asks { AsksQmi settings.now.kind form plan (route_to plan.device settings.now)
        (record { link = L.calls link.old; spawner = P.calls spawner.old; out = O.taken out.old; made = together (L.made link.old) (O.made out.old) })
        (record { link = L.calls link.new; spawner = P.calls spawner.new; out = O.taken out.new; made = together (L.made link.new) (O.made out.new) })
        result }
    ensures own { IsOfTool result }
    ensures link_fault { result ≡ Status.LinkFault → LinkFails (route_to plan.device settings.now) L.faults L.open_faults link.old link.new }
    ensures start_fault { result ≡ Status.StartFault → Rose (P.faults spawner.old) (P.faults spawner.new) }
    ensures write_fault { result ≡ Status.WriteFault → Rose (O.faults out.old) (O.faults out.new) }
{
    match settings.kind {
        Kind::Qmi => {
            let to = Destination {
                device: &plan.device,
                settings,
            };
            let asked = ShownPlan {
                plan: &plan,
                decoding: Decoding::Each,
            };
            let status = ask_in_form(alloc, to, &asked, form, out, link, spawner);
            drop(plan);
            status
        }
        Kind::Mbim => {
            let plan = TunnelPlan { qmi: plan };
            let to = Destination {
                device: &plan.qmi.device,
                settings,
            };
            let asked = ShownPlan {
                plan: &plan,
                decoding: Decoding::Each,
            };
            let status = ask_in_form(alloc, to, &asked, form, out, link, spawner);
            drop(plan);
            status
        }
    }
}

// Asks an MBIM modem what the words of `mbimcli` want, over the link that leads to it.
pub fn ask_mbim<O: Sink, L: Watch, P: Spawner>(
    alloc: Global,
    task: MbimTask,
    out: &mut O,
    link: &mut L,
    spawner: &mut P,
) -> Status
    ensures asks { Asks (route_to task.device task.link) (mbim_asked_in task.form (mbim_plan task))
        (record { link = L.calls link.old; spawner = P.calls spawner.old; out = O.taken out.old; made = together (L.made link.old) (O.made out.old) })
        (record { link = L.calls link.new; spawner = P.calls spawner.new; out = O.taken out.new; made = together (L.made link.new) (O.made out.new) })
        result }
    ensures own { IsOfTool result }
    ensures link_fault { result ≡ Status.LinkFault → LinkFails (route_to task.device task.link) L.faults L.open_faults link.old link.new }
    ensures start_fault { result ≡ Status.StartFault → Rose (P.faults spawner.old) (P.faults spawner.new) }
    ensures write_fault { result ≡ Status.WriteFault → Rose (O.faults out.old) (O.faults out.new) }
{
    let (settings, form) = (task.link, task.form);
    let plan = MbimPlan {
        device: task.device,
        proxied: settings.proxied,
        close: task.close,
        timeout: settings.timeout,
        request: task.request,
    };
    let to = Destination {
        device: &plan.device,
        settings: &settings,
    };
    let asked = ShownPlan {
        plan: &plan,
        decoding: mbim_decoding(true, &plan.request),
    };
    let status = ask_in_form(alloc, to, &asked, form, out, link, spawner);
    drop(plan);
    status
}

// Asks the modem at a device, and prints its answer in a form; where that tells what messages say, so.
fn ask_in_form<S: JsonSession, O: Sink, L: Watch, P: Spawner>(
    alloc: Global,
    to: Destination<'_>,
    asked: &ShownPlan<'_, S>,
    form: AnswerForm,
    out: &mut O,
    link: &mut L,
    spawner: &mut P,
) -> Status
    ensures asks { Asks (route_to to.entry.device.now to.entry.settings.now) (asked_in_form form asked.now.decoding S.session S.refused S.printed S.bodies S.line asked.now.plan.now)
        (record { link = L.calls link.old; spawner = P.calls spawner.old; out = O.taken out.old; made = together (L.made link.old) (O.made out.old) })
        (record { link = L.calls link.new; spawner = P.calls spawner.new; out = O.taken out.new; made = together (L.made link.new) (O.made out.new) })
        result }
    ensures own { IsOfTool result }
    ensures link_fault { result ≡ Status.LinkFault → LinkFails (route_to to.entry.device.now to.entry.settings.now) L.faults L.open_faults link.old link.new }
    ensures start_fault { result ≡ Status.StartFault → Rose (P.faults spawner.old) (P.faults spawner.new) }
    ensures write_fault { result ≡ Status.WriteFault → Rose (O.faults out.old) (O.faults out.new) }
{
    let decoding = Decoding::Nothing;
    match form {
        AnswerForm::Lines => {
            let bare = ShownPlan {
                plan: asked.plan,
                decoding,
            };
            ask_device(alloc, to, &bare, out, link, spawner)
        }
        AnswerForm::Decoded => ask_device(alloc, to, asked, out, link, spawner),
        AnswerForm::Json => {
            let plan = JsonPlan { asked: asked.plan };
            let bare = ShownPlan {
                plan: &plan,
                decoding,
            };
            ask_device(alloc, to, &bare, out, link, spawner)
        }
    }
}

// Asks the modem at a device, which is reached as the words of a tool say, and prints its answer.
pub fn ask_device<S: Session, O: Sink, L: Watch, P: Spawner>(
    alloc: Global,
    to: Destination<'_>,
    asked: &ShownPlan<'_, S>,
    out: &mut O,
    link: &mut L,
    spawner: &mut P,
) -> Status
    ensures asks { Asks (route_to to.entry.device.now to.entry.settings.now) (asked_of S.session S.refused (shown asked.now.decoding S.printed S.bodies) asked.now.plan.now)
        (record { link = L.calls link.old; spawner = P.calls spawner.old; out = O.taken out.old; made = together (L.made link.old) (O.made out.old) })
        (record { link = L.calls link.new; spawner = P.calls spawner.new; out = O.taken out.new; made = together (L.made link.new) (O.made out.new) })
        result }
    ensures own { IsOfTool result }
    ensures link_fault { result ≡ Status.LinkFault → LinkFails (route_to to.entry.device.now to.entry.settings.now) L.faults L.open_faults link.old link.new }
    ensures start_fault { result ≡ Status.StartFault → Rose (P.faults spawner.old) (P.faults spawner.new) }
    ensures write_fault { result ≡ Status.WriteFault → Rose (O.faults out.old) (O.faults out.new) }
{
    if watch_if(to.settings.verbose, link).is_err() {
        return Status::OutOfMemory;
    }
    let Ok(route) = route_to(alloc, to.device, to.settings) else {
        return Status::OutOfMemory;
    };
    ask_modem(alloc, &route, asked, out, link, spawner)
}

// What is done on the link is noted, if that is wanted. Else nothing is.
pub fn watch_if<L: Watch>(verbose: bool, link: &mut L) -> Result<(), AllocError>
    ensures calls { L.calls link.new ≡ L.calls link.old }
    ensures made { L.made link.new ≡ L.made link.old }
    ensures faults { L.faults link.new ≡ L.faults link.old }
    ensures open_faults { L.open_faults link.new ≡ L.open_faults link.old }
    ensures unwatched { verbose ≡ false → link.new ≡ link.old }
{
    if verbose {
        return link.watch();
    }
    Ok(())
}

// Asks a modem on this route, and prints its answer.
fn ask_modem<S: Session, O: Sink, L: Watch, P: Spawner>(
    alloc: Global,
    route: &Route,
    asked: &ShownPlan<'_, S>,
    out: &mut O,
    link: &mut L,
    spawner: &mut P,
) -> Status
    ensures asks { EndsAs status_of result (λ ends. AsksModem (path_in route.now) (asked_of S.session S.refused (shown asked.now.decoding S.printed S.bodies) asked.now.plan.now)
        (record { link = L.calls link.old; spawner = P.calls spawner.old; out = O.taken out.old; made = together (L.made link.old) (O.made out.old) })
        (record { link = L.calls link.new; spawner = P.calls spawner.new; out = O.taken out.new; made = together (L.made link.new) (O.made out.new) })
        ends) }
    ensures own { IsOfTool result }
    ensures link_fault { result ≡ Status.LinkFault → LinkFails (path_in route.now) L.faults L.open_faults link.old link.new }
    ensures start_fault { result ≡ Status.StartFault → Rose (P.faults spawner.old) (P.faults spawner.new) }
    ensures write_fault { result ≡ Status.WriteFault → Rose (O.faults out.old) (O.faults out.new) }
{
    Status::from(ask(alloc, route, asked, out, link, spawner))
}

// Prints the bodies of the messages that carry a text to a number.
pub fn submit_text<O: Sink>(
    alloc: Global,
    number: &Text,
    text: &Text,
    reference: u8,
    out: &mut O,
) -> Status
    requires { IsTrue (can_be_sent number.now text.now) }
    ensures prints { EndsAs status_of result (λ ends. PrintsText (hex_lines (messages number.now text.now reference)) (O.taken out.old) ends (O.taken out.new)) }
    ensures own { IsOfTool result }
    ensures link_fault { ¬ (result ≡ Status.LinkFault) }
    ensures start_fault { ¬ (result ≡ Status.StartFault) }
    ensures read_fault { ¬ (result ≡ Status.ReadFault) }
    ensures write_fault { result ≡ Status.WriteFault → Rose (O.faults out.old) (O.faults out.new) }
{
    Status::from(submit(alloc, number, text, reference, out))
}

// Prints what the descriptions in a file describe, or what their message of a name takes and gives.
pub fn print_description<O: Sink, F: Files>(
    alloc: Global,
    file: &PathText,
    message: Option<&ShortText>,
    out: &mut O,
    files: &mut F,
) -> Status
    ensures describes { EndsAs status_of result (λ ends. DescribesFile (encode_utf8_all file.now) (option_copied message.entry) (F.calls files.old) (F.calls files.new) (O.taken out.old) ends (O.taken out.new)) }
    ensures own { IsOfTool result }
    ensures link_fault { ¬ (result ≡ Status.LinkFault) }
    ensures start_fault { ¬ (result ≡ Status.StartFault) }
    ensures read_fault { result ≡ Status.ReadFault → Rose (F.read_faults files.old) (F.read_faults files.new) }
    ensures write_fault { result ≡ Status.WriteFault → Rose (O.faults out.old) (O.faults out.new) }
{
    Status::from(describe_file(alloc, file, message, out, files))
}
