ghost use Rattle.std.specs.Prelude.{◌≡◌};
ghost use Rattle.program.specs.Status.{kind_word};

use crate::opening::OpenFault;
use dissect::{CaptureEnd, DissectEnd};
use hub_io::ServeEnd;
use many_runs::{ManyEnd, NotOpened};
use message_tables::TableFault;
use modem_profile::ProfileFault;
use modem_rules::RulesFault;
use named_messages::NamedFault;
use pump::PumpEnd;
use sim_runs::SimEnd;
use sim_supervision::SupervisionEnd;
use table_requests::{InputFault, NoRequest};
use tool_runs::RunEnd;
use tool_words::UsageKind;

/// How a run of the program ended.
#[derive(Drop)]
pub enum Status {
    Done,
    /// The modem refused the request with this code, by a function error or in its answer; or the
    /// simulated modem that was kept running ended with it.
    Denied { function: bool, code: u32 },
    /// The words are refused.
    Usage { kind: UsageKind },
    /// A call on the link failed.
    LinkFault,
    /// The modem ended the link before its answer.
    LinkEnd,
    /// The modem was quiet for too long.
    TimedOut,
    /// What came from the modem isn't its answer, from this place of its stream on.
    Broken { place: u64 },
    /// Too many messages came without the answer.
    Flooded,
    /// The text couldn't be written.
    WriteFault,
    /// The descriptions of messages aren't read, for this fault or since they are too long.
    TableFault { fault: Option<TableFault> },
    /// The descriptions give no message of the name, for this fault.
    MessageFault { fault: NamedFault },
    /// The values of a request aren't those of its message, for this fault.
    InputFault { fault: InputFault },
    /// A file couldn't be read.
    ReadFault,
    /// A child wasn't started, or not stopped.
    StartFault,
    /// The proxy that was started never listened.
    NoProxy,
    /// A call on the hub failed.
    HubFault,
    /// All the turns were taken.
    TurnsSpent,
    /// The profile of a simulated modem isn't read, for this fault or since it is too long.
    ProfileFault { fault: Option<ProfileFault> },
    /// The rules of a simulated modem aren't read, for this fault or since they are too long.
    RulesFault { fault: Option<RulesFault> },
    OutOfMemory,
}

// The word for a reason in the line that tells of it.
pub fn kind_word(kind: UsageKind) -> &'static str
    ensures { result.now ≡ kind_word kind }
{
    match kind {
        UsageKind::NoTool => "no tool",
        UsageKind::UnknownTool => "unknown tool",
        UsageKind::Words => "words",
        UsageKind::NoDevice => "no device",
        UsageKind::NoCommand => "no command",
        UsageKind::ManyCommands => "many commands",
        UsageKind::Value => "value",
    }
}

impl Status {
    ghost use Rattle.program.specs.Status.{code_of, status_of_child, with_stops};

    /// The exit status.
    pub fn code(&self) -> u8
        ensures { result ≡ code_of self.now }
    {
        match self {
            Status::Done => 0,
            Status::Denied { .. } => 1,
            Status::Usage { .. } => 2,
            Status::LinkFault => 3,
            Status::LinkEnd => 4,
            Status::TimedOut => 5,
            Status::Broken { .. } => 6,
            Status::Flooded => 7,
            Status::WriteFault => 8,
            Status::TableFault { .. } | Status::MessageFault { .. } => 9,
            Status::ReadFault => 10,
            Status::StartFault => 11,
            Status::NoProxy => 12,
            Status::HubFault => 13,
            Status::TurnsSpent => 14,
            Status::ProfileFault { .. } => 15,
            Status::RulesFault { .. } => 16,
            Status::InputFault { .. } => 17,
            Status::OutOfMemory => 70,
        }
    }

    // How a run ended whose last child ended so.
    #[tactic(auto, unfolding(crate::specs::Status::status_of_child))]
    fn of_child(status: i32) -> Self
        ensures { result ≡ status_of_child status }
    {
        match u32::try_from(status) {
            Ok(0) => Status::Done,
            Ok(code) => Status::Denied {
                function: false,
                code,
            },
            Err(_) => Status::Denied {
                function: false,
                code: 255,
            },
        }
    }

    // How a run ended of whose children one may not have been stopped.
    pub(crate) fn with_stops(self, stopped: bool) -> Self
        ensures { result ≡ with_stops stopped self }
    {
        match self {
            Status::Done if !stopped => Status::StartFault,
            status => status,
        }
    }
}

impl From<RunEnd> for Status {
    ghost use Rattle.program.specs.Status.{status_of};

    ghost from_gives = { λ end status. status ≡ status_of end };

    fn from(end: RunEnd) -> Self {
        match end {
            RunEnd::Done => Status::Done,
            RunEnd::Denied { function, code } => Status::Denied { function, code },
            RunEnd::LinkFault => Status::LinkFault,
            RunEnd::LinkEnd => Status::LinkEnd,
            RunEnd::TimedOut => Status::TimedOut,
            RunEnd::Broken { place } => Status::Broken { place },
            RunEnd::Flooded => Status::Flooded,
            RunEnd::TableFault { fault } => Status::TableFault { fault },
            RunEnd::MessageFault { fault } => Status::MessageFault { fault },
            RunEnd::ReadFault => Status::ReadFault,
            RunEnd::WriteFault => Status::WriteFault,
            RunEnd::StartFault => Status::StartFault,
            RunEnd::NoProxy => Status::NoProxy,
            RunEnd::OutOfMemory => Status::OutOfMemory,
        }
    }
}

impl From<NoRequest> for Status {
    ghost use Rattle.program.specs.Status.{status_of_none};

    ghost from_gives = { λ none status. status ≡ status_of_none none };

    fn from(none: NoRequest) -> Self {
        match none {
            NoRequest::ReadFault => Status::ReadFault,
            NoRequest::Long => Status::TableFault { fault: None },
            NoRequest::Message(fault) => Status::MessageFault { fault },
            NoRequest::Input(fault) => Status::InputFault { fault },
            NoRequest::OutOfMemory => Status::OutOfMemory,
        }
    }
}

impl From<ServeEnd> for Status {
    ghost use Rattle.program.specs.Status.{status_of_end};

    ghost from_gives = { λ end status. status ≡ status_of_end end };

    fn from(end: ServeEnd) -> Self {
        match end {
            ServeEnd::Stopped | ServeEnd::Empty => Status::Done,
            ServeEnd::Lost => Status::LinkEnd,
            ServeEnd::HubFault => Status::HubFault,
            ServeEnd::TurnsSpent => Status::TurnsSpent,
            ServeEnd::OutOfMemory => Status::OutOfMemory,
        }
    }
}

impl From<OpenFault> for Status {
    ghost use Rattle.program.specs.Serving.{status_of_opening};

    ghost from_gives = { λ fault status. status ≡ status_of_opening fault };

    fn from(fault: OpenFault) -> Self {
        match fault {
            OpenFault::Hub => Status::HubFault,
            OpenFault::Start => Status::StartFault,
        }
    }
}

impl From<ManyEnd> for Status {
    ghost use Rattle.program.specs.Several.{status_of_many};

    ghost from_gives = { λ end status. status ≡ status_of_many end };

    fn from(end: ManyEnd) -> Self {
        match end {
            ManyEnd::Served(why) => Status::from(why),
            ManyEnd::NotOpened(NotOpened::Hub) => Status::HubFault,
            ManyEnd::NotOpened(NotOpened::Start) => Status::StartFault,
            ManyEnd::NoMemory => Status::OutOfMemory,
        }
    }
}

impl From<SimEnd> for Status {
    ghost use Rattle.program.specs.Status.{status_of_sim};

    ghost from_gives = { λ end status. status ≡ status_of_sim end };

    fn from(end: SimEnd) -> Self {
        match end {
            SimEnd::Served(end) => Status::from(end),
            SimEnd::HubFault => Status::HubFault,
            SimEnd::ReadFault => Status::ReadFault,
            SimEnd::ProfileFault(fault) => Status::ProfileFault { fault },
            SimEnd::RulesFault(fault) => Status::RulesFault { fault },
            SimEnd::OutOfMemory => Status::OutOfMemory,
        }
    }
}

impl From<SupervisionEnd> for Status {
    ghost use Rattle.program.specs.Status.{status_of_keeping};

    ghost from_gives = { λ end status. status ≡ status_of_keeping end };

    fn from(end: SupervisionEnd) -> Self {
        match end {
            SupervisionEnd::Ended(status) => Status::of_child(status),
            SupervisionEnd::StartFault => Status::StartFault,
            SupervisionEnd::OutOfMemory => Status::OutOfMemory,
        }
    }
}

impl From<CaptureEnd> for Status {
    ghost use Rattle.program.specs.Status.{status_of_capture};

    ghost from_gives = { λ end status. status ≡ status_of_capture end };

    fn from(end: CaptureEnd) -> Self {
        match end {
            CaptureEnd::Shown(end) => Status::from(end),
            CaptureEnd::ReadFault => Status::ReadFault,
            CaptureEnd::TableFault(fault) => Status::TableFault { fault },
            CaptureEnd::OutOfMemory => Status::OutOfMemory,
        }
    }
}

impl From<DissectEnd> for Status {
    ghost use Rattle.program.specs.Status.{status_of_dissect};

    ghost from_gives = { λ end status. status ≡ status_of_dissect end };

    fn from(end: DissectEnd) -> Self {
        match end {
            DissectEnd::Done => Status::Done,
            DissectEnd::Broken { place } => Status::Broken { place },
            DissectEnd::ReadFault => Status::ReadFault,
            DissectEnd::WriteFault => Status::WriteFault,
            DissectEnd::TurnsSpent => Status::TurnsSpent,
            DissectEnd::OutOfMemory => Status::OutOfMemory,
        }
    }
}

impl From<PumpEnd> for Status {
    ghost use Rattle.program.specs.Status.{status_of_pump};

    ghost from_gives = { λ end status. status ≡ status_of_pump end };

    fn from(end: PumpEnd) -> Self {
        match end {
            PumpEnd::Ended => Status::Done,
            PumpEnd::LinkFault => Status::LinkFault,
            PumpEnd::ReadFault => Status::ReadFault,
            PumpEnd::WriteFault => Status::WriteFault,
            PumpEnd::TurnsSpent => Status::TurnsSpent,
        }
    }
}
