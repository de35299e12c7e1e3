ghost use Rattle.std.specs.Prelude.{◌≡◌, ◌≤◌, [], IfOk};
ghost use Rattle.std.specs.Str.{encode_utf8_all};
ghost use Rattle.kit_io.specs.Causes.{Rose};
ghost use Rattle.hub_io.specs.Record.{Since};
ghost use Rattle.modem_routes.specs.Reaching.{StartsBy};
ghost use Rattle.modem_routes.specs.Routes.{place_in, place_of};
ghost use Rattle.proxy_serving.specs.Ends.{EndsSo};
ghost use Rattle.program.specs.Serving.{Serves, ServesProxy, asked_in, asked_with, proxy_for};
ghost use Rattle.program.specs.Status.{IsOfProxy};

use crate::opening::open_device;
use crate::status::Status;
use child_io::{Kids, Spawner};
use hub_io::{Hub, ServeEnd, Settings, Until};
use kit_bytes::{Kind, PathText, Text};
use mbim_core::MbimHand;
use modem_routes::Device;
use proxy_core::serve_proxy;
use qmi_core::QmiHand;
use std::alloc::{AllocError, Global};
use tool_words::ProxyTask;

// What a proxy is to be: one for modems of a kind, to whose socket clients connect, with these settings.
#[derive(Clone, Copy)]
struct ServeTask<'a> {
    kind: Kind,
    socket: &'a PathText,
    settings: &'a Settings,
}

// How the words of a proxy want it.
fn settings_of(alloc: Global, task: &ProxyTask) -> Result<Settings, AllocError>
    ensures { IfOk result (λ settings. asked_with task.now.socket settings ≡ asked_in task.now) }
{
    Ok(Settings {
        device: Text::from_str(alloc, task.device.value().as_str())?,
        time: task.time,
        release: task.release,
        until: Until {
            empty: task.empty,
            lost: task.exit_when_lost,
        },
        turns: task.turns,
    })
}

// Serves a device to the clients of a socket as the words of a proxy want it, over a bridge where it
// is a node.
#[tactic(auto, using(crate::proofs::Opened::without_memory))]
pub fn proxy_modem<H: Hub, P: Spawner>(
    alloc: Global,
    task: &ProxyTask,
    hub: &mut H,
    spawner: &mut P,
) -> Status
    ensures serves { ServesProxy task.now.kind (asked_in task.now) (place_of (encode_utf8_all task.now.device) (encode_utf8_all task.now.bridge)) (H.calls hub.old) (P.calls spawner.old) result (H.calls hub.new) (H.made hub.new) (P.calls spawner.new) }
    ensures own { IsOfProxy result }
    ensures hub_fault { result ≡ Status.HubFault → Rose (H.faults hub.old) (H.faults hub.new) }
    ensures start_fault { result ≡ Status.StartFault → Rose (P.faults spawner.old) (P.faults spawner.new) }
{
    match settings_of(alloc, task) {
        Ok(settings) => {
            let serving = ServeTask {
                kind: task.kind,
                socket: &task.socket,
                settings: &settings,
            };
            serve(alloc, &serving, &task.bridge, hub, spawner)
        }
        Err(AllocError) => Status::OutOfMemory,
    }
}

// Serves the device of the settings, wherever it is.
#[tactic(auto, using(crate::proofs::Opened::without_memory))]
fn serve<H: Hub, P: Spawner>(
    alloc: Global,
    task: &ServeTask<'_>,
    bridge: &PathText,
    hub: &mut H,
    spawner: &mut P,
) -> Status
    ensures serves { ServesProxy task.now.kind (asked_with task.now.socket.now task.now.settings.now) (place_of (encode_utf8_all task.now.settings.now.device) (encode_utf8_all bridge.now)) (H.calls hub.old) (P.calls spawner.old) result (H.calls hub.new) (H.made hub.new) (P.calls spawner.new) }
    ensures own { IsOfProxy result }
    ensures hub_fault { result ≡ Status.HubFault → Rose (H.faults hub.old) (H.faults hub.new) }
    ensures start_fault { result ≡ Status.StartFault → Rose (P.faults spawner.old) (P.faults spawner.new) }
{
    match Device::at(
        alloc,
        task.settings.device.as_str(),
        bridge.value().as_str(),
    ) {
        Ok(device) => serve_device(alloc, task, &device, hub, spawner),
        Err(AllocError) => Status::OutOfMemory,
    }
}

// Serves a device, and stops whatever was started.
fn serve_device<H: Hub, P: Spawner>(
    alloc: Global,
    task: &ServeTask<'_>,
    device: &Device,
    hub: &mut H,
    spawner: &mut P,
) -> Status
    ensures serves { ServesProxy task.now.kind (asked_with task.now.socket.now task.now.settings.now) (place_in device.now) (H.calls hub.old) (P.calls spawner.old) result (H.calls hub.new) (H.made hub.new) (P.calls spawner.new) }
    ensures own { IsOfProxy result }
    ensures hub_fault { result ≡ Status.HubFault → Rose (H.faults hub.old) (H.faults hub.new) }
    ensures start_fault { result ≡ Status.StartFault → Rose (P.faults spawner.old) (P.faults spawner.new) }
{
    let mut kids = Kids::none();
    let end = serve_kept(alloc, task, device, hub, spawner, &mut kids);
    let stopped = kids.stop_all(spawner, hub.made()).is_ok();
    end.with_stops(stopped)
}

// The same, but that the children are kept.
fn serve_kept<H: Hub, P: Spawner>(
    alloc: Global,
    task: &ServeTask<'_>,
    device: &Device,
    hub: &mut H,
    spawner: &mut P,
    kids: &mut Kids,
) -> Status
    requires { kids.old ≡ [] }
    ensures serves { StartsBy (Serves task.now.kind (asked_with task.now.socket.now task.now.settings.now) (place_in device.now) (H.calls hub.old) (H.calls hub.new) result) (P.calls spawner.old) kids.new (P.calls spawner.new) }
    ensures own { IsOfProxy result }
    ensures hub_fault { result ≡ Status.HubFault → Rose (H.faults hub.old) (H.faults hub.new) }
    ensures start_fault { result ≡ Status.StartFault → Rose (P.faults spawner.old) (P.faults spawner.new) }
    ensures later_starts { P.faults spawner.old ≤ P.faults spawner.new }
{
    match open_device(task.socket.value().as_str(), device, hub, spawner, kids) {
        Ok(()) => Status::from(serve_opened(alloc, task.kind, task.settings, hub)),
        Err(fault) => Status::from(fault),
    }
}

fn serve_opened<H: Hub>(alloc: Global, kind: Kind, settings: &Settings, hub: &mut H) -> ServeEnd
    ensures served { Since (H.calls hub.old) (H.calls hub.new) (EndsSo (proxy_for kind settings.now.device settings.now.time settings.now.release) settings.now.until settings.now.turns result) }
    ensures later { H.faults hub.old ≤ H.faults hub.new }
    ensures fault { result ≡ ServeEnd.HubFault → Rose (H.faults hub.old) (H.faults hub.new) }
{
    match kind {
        Kind::Qmi => serve_proxy::<QmiHand, H>(alloc, hub, settings),
        Kind::Mbim => serve_proxy::<MbimHand, H>(alloc, hub, settings),
    }
}
