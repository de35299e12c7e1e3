ghost use Rattle.std.specs.Prelude.{◌≡◌};
ghost use Rattle.rig_runs.specs.Mbim.{asks_for};

use crate::protocol::{DEVICE, Protocol};
use kit_bytes::{Kind, Octets, PathText, Text};
use mbim_frame::open_request;
use mbim_requests::MbimRequest;
use mbim_session::command_message;
use modem_profile::Profile;
use sim_mbim::MbimSim;
use std::alloc::{AllocError, Global};

/// A client opens the modem for messages of at most so many bytes.
const LONGEST_MESSAGE: u32 = 4_096;

/// The clients of an MBIM modem.
pub struct MbimClients;

impl Protocol for MbimClients {
    ghost use Rattle.std.specs.Prelude.{refl};
    ghost use Rattle.kit_bytes.specs.declared.kind.Kind.TheVariants.{Mbim};
    ghost use Rattle.modem_profile.specs.Profile.{default_profile};
    ghost use Rattle.mbim_frame.specs.Writing.{open_request};
    ghost use Rattle.mbim_proxy.specs.Proxy.{proxy_of};
    ghost use Rattle.mbim_requests.specs.declared.MbimRequest.TheVariants.{ProxyConfiguration};
    ghost use Rattle.mbim_session.specs.Requests.{command_message, longest_sent};
    ghost use Rattle.rig_runs.specs.Mbim.{asks_for, mbim_rig, setup};
    ghost use Rattle.rig_runs.specs.Rig.{device};
    ghost use Rattle.sim_modem.specs.Sim.{answers};
    ghost use Rattle.sim_mbim.specs.Answers.{machine};
    ghost use Rattle.rig_play.specs.Mbim.{begins, keeps_time, opens};
    ghost use Rattle.rig_play.specs.Numbers.{from_3};

    type Modem = MbimSim;

    ghost kind = { Mbim };

    ghost proxy = { proxy_of setup };

    ghost answers = { answers (machine default_profile) };

    ghost first = { command_message (ProxyConfiguration device) 1 };

    ghost second = { open_request 2 longest_sent };

    ghost asks = { λ conn choice number. command_message (asks_for choice) number };

    ghost FIRST_NUMBER = { 3 };

    ghost events = { mbim_rig };

    const FIRST_NUMBER: u16 = 3;

    fn kind() -> Kind {
        Kind::Mbim
    }

    fn modem(alloc: Global) -> Result<MbimSim, AllocError> {
        let profile = Profile::defaults(alloc)?;
        let modem = MbimSim::open(alloc, &profile);
        drop(profile);
        modem
    }

    fn first(alloc: Global) -> Result<Octets, AllocError> {
        let device = Text::from_str(alloc, DEVICE)?;
        let path = PathText::of(device).unwrap();
        let configuration = MbimRequest::ProxyConfiguration(path);
        let message = command_message(alloc, &configuration, 1);
        drop(configuration);
        message
    }

    fn second(alloc: Global) -> Result<Octets, AllocError> {
        Octets::from_slice(alloc, &open_request(2, LONGEST_MESSAGE))
    }

    fn request(alloc: Global, _conn: u8, choice: u64, number: u16) -> Result<Octets, AllocError> {
        let request = asked(choice);
        let message = command_message(alloc, &request, u32::from(number));
        drop(request);
        message
    }

    ghost numbered = { from_3 };

    ghost opens = { opens };

    ghost begins = { begins };

    ghost keeps_time = { keeps_time };

    ghost draws = { λ clients turns number. refl };
}

// What a client asks by this choice.
fn asked(choice: u64) -> MbimRequest
    ensures { result ≡ asks_for choice }
{
    match choice {
        0 => MbimRequest::QueryRadioState,
        1 => MbimRequest::QueryHomeProvider,
        2 => MbimRequest::QueryRegistrationState,
        _ => MbimRequest::QuerySignalState,
    }
}
