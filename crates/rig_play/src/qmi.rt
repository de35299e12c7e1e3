ghost use Rattle.std.specs.Prelude.{◌≡◌, ◌+◌, ◌≤◌, length, IfOk};
ghost use Rattle.qmi_requests.specs.declared.QmiRequest.{QmiRequest};
ghost use Rattle.qmi_services.specs.Requests.{row_of};
ghost use Rattle.qmi_services.specs.Table.{nas};
ghost use Rattle.device_core.specs.Requests as session;
ghost use Rattle.rig_runs.specs.Qmi.{asks_for};

use crate::protocol::{DEVICE, Protocol};
use kit_bytes::{Kind, Octets, PathText, Text};
use modem_profile::Profile;
use qmi_requests::QmiRequest;
use qmi_services::{message_of, request, service_of};
use qmux_frame::{MessageKind, NewMessage, Sender};
use sim_qmi::QmiSim;
use std::alloc::{AllocError, Global};

/// The service NAS.
const NAS: u8 = 3;

/// The clients of a QMI modem.
pub struct QmiClients;

impl Protocol for QmiClients {
    ghost use Rattle.std.specs.Prelude.{refl};
    ghost use Rattle.kit_bytes.specs.declared.kind.Kind.TheVariants.{Qmi};
    ghost use Rattle.modem_profile.specs.Profile.{default_profile};
    ghost use Rattle.qmi_proxy.specs.Proxy.{proxy_of};
    ghost use Rattle.qmi_requests.specs.declared.QmiRequest.TheVariants.{ProxyOpen, Allocate};
    ghost use Rattle.qmi_services.specs.Table.{nas};
    ghost use Rattle.rig_runs.specs.Qmi.{asks_for, device, qmi_rig, says, setup};
    ghost use Rattle.sim_modem.specs.Sim.{answers};
    ghost use Rattle.sim_qmi.specs.Modem.{machine};
    ghost use Rattle.rig_play.specs.Qmi.{begins, keeps_time};
    ghost use Rattle.rig_play.specs.Numbers.{from_1};

    type Modem = QmiSim;

    ghost kind = { Qmi };

    ghost proxy = { proxy_of setup };

    ghost answers = { answers (machine default_profile) };

    ghost first = { says (ProxyOpen device) 0 1 };

    ghost second = { says (Allocate nas) 0 2 };

    ghost asks = { λ conn choice number. says (asks_for choice) conn number };

    ghost FIRST_NUMBER = { 1 };

    ghost events = { qmi_rig };

    const FIRST_NUMBER: u16 = 1;

    fn kind() -> Kind {
        Kind::Qmi
    }

    fn modem(alloc: Global) -> Result<QmiSim, AllocError> {
        let profile = Profile::defaults(alloc)?;
        let modem = QmiSim::open(alloc, &profile);
        drop(profile);
        modem
    }

    fn first(alloc: Global) -> Result<Octets, AllocError> {
        let device = Text::from_str(alloc, DEVICE)?;
        let path = PathText::of(device).unwrap();
        let open = QmiRequest::ProxyOpen(path);
        let message = write(alloc, &open, 0, 1);
        drop(open);
        message
    }

    fn second(alloc: Global) -> Result<Octets, AllocError> {
        let allocate = QmiRequest::Allocate(NAS);
        let message = write(alloc, &allocate, 0, 2);
        drop(allocate);
        message
    }

    fn request(alloc: Global, conn: u8, choice: u64, number: u16) -> Result<Octets, AllocError> {
        let body = asked(choice);
        let message = write(alloc, &body, conn, number);
        drop(body);
        message
    }

    ghost numbered = { from_1 };

    ghost opens = { refl };

    ghost begins = { begins };

    ghost keeps_time = { keeps_time };

    ghost draws = { λ clients turns number. refl };
}

// What a client asks by this choice.
fn asked(choice: u64) -> QmiRequest
    ensures request { result ≡ asks_for choice }
    ensures service { (row_of result).service ≡ nas }
{
    match choice {
        0 => QmiRequest::NasGetSignalStrength,
        1 => QmiRequest::NasNetworkScan,
        2 => QmiRequest::NasGetServingSystem,
        _ => QmiRequest::NasGetHomeNetwork,
    }
}

// The whole message of a request, with this client id and this number.
#[tactic(auto, unfolding(device_core::specs::Requests::message_of))]
fn write(alloc: Global, body: &QmiRequest, cid: u8, number: u16) -> Result<Octets, AllocError>
    requires { (row_of body.now).service ≡ 0 → number ≤ 255 }
    ensures message { IfOk result (λ message. message ≡ session.message_of (record { body = body.now; cid = cid; number = number })) }
    ensures short { IfOk result (λ message. length message ≤ 16384) }
{
    let tlvs = request(alloc, body)?;
    let service = service_of(body);
    let message = NewMessage {
        sender: Sender::Host,
        service,
        cid,
        flags: MessageKind::Request.flags(service),
        number,
        message: message_of(body),
    };
    let octets = message.write(alloc, tlvs.as_slice())?;
    Ok(octets)
}
