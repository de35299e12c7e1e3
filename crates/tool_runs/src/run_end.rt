ghost use Rattle.std.specs.Prelude.{◌≡◌};

use file_io::FileFault;
use link_session::SessionFault;
use message_tables::TableFault;
use modem_routes::ReachFault;
use named_messages::NamedFault;

/// How a command ended.
#[derive(Clone, Copy, PartialEq, Eq)]
pub enum RunEnd {
    /// Its text was printed.
    Done,
    /// The modem refused the request, or the one that gets a client id or opens a proxy's device, with
    /// this code, by a function error or in its answer.
    Denied { function: bool, code: u32 },
    /// A call on the link failed.
    LinkFault,
    /// The modem ended the link before its answer.
    LinkEnd,
    /// The modem was quiet for too long.
    TimedOut,
    /// From this place of the modem's stream on comes what isn't an answer.
    Broken { place: u64 },
    /// Too many messages came without the answer.
    Flooded,
    /// The descriptions of messages aren't read, for this fault or since they are too long.
    TableFault { fault: Option<TableFault> },
    /// The descriptions give no message of the name, for this fault.
    MessageFault { fault: NamedFault },
    /// Their file couldn't be read.
    ReadFault,
    /// The text couldn't be written.
    WriteFault,
    /// A child wasn't started, or not stopped.
    StartFault,
    /// The proxy that was started never listened.
    NoProxy,
    OutOfMemory,
}

impl RunEnd {
    ghost use Rattle.tool_runs.specs.Asking.{with_stops};

    // How a command ended of whose children one may not have been stopped.
    pub(crate) fn with_stops(self, stopped: bool) -> Self
        ensures { result ≡ with_stops stopped self }
    {
        match self {
            RunEnd::Done if !stopped => RunEnd::StartFault,
            end => end,
        }
    }
}

impl From<ReachFault> for RunEnd {
    ghost use Rattle.tool_runs.specs.Asking.{end_of_reaching};

    ghost from_gives = { λ fault end. end ≡ end_of_reaching fault };

    fn from(fault: ReachFault) -> Self {
        match fault {
            ReachFault::LinkFault => RunEnd::LinkFault,
            ReachFault::StartFault => RunEnd::StartFault,
            ReachFault::NoProxy => RunEnd::NoProxy,
        }
    }
}

impl From<SessionFault> for RunEnd {
    ghost use Rattle.tool_runs.specs.Asking.{end_of};

    ghost from_gives = { λ fault end. end ≡ end_of fault };

    fn from(fault: SessionFault) -> Self {
        match fault {
            SessionFault::LinkFault => RunEnd::LinkFault,
            SessionFault::LinkEnd => RunEnd::LinkEnd,
            SessionFault::TimedOut => RunEnd::TimedOut,
            SessionFault::Broken { place } => RunEnd::Broken { place },
            SessionFault::Flooded => RunEnd::Flooded,
            SessionFault::OutOfMemory => RunEnd::OutOfMemory,
        }
    }
}

impl From<FileFault> for RunEnd {
    ghost use Rattle.tool_runs.specs.Describing.{end_of_file};

    ghost from_gives = { λ fault end. end ≡ end_of_file fault };

    fn from(fault: FileFault) -> Self {
        match fault {
            FileFault::ReadFault => RunEnd::ReadFault,
            FileFault::Long => RunEnd::TableFault { fault: None },
            FileFault::OutOfMemory => RunEnd::OutOfMemory,
        }
    }
}

impl From<TableFault> for RunEnd {
    ghost use Rattle.tool_runs.specs.Describing.{end_of_tables};

    ghost from_gives = { λ fault end. end ≡ end_of_tables fault };

    fn from(fault: TableFault) -> Self {
        match fault {
            TableFault::OutOfMemory => RunEnd::OutOfMemory,
            fault => RunEnd::TableFault { fault: Some(fault) },
        }
    }
}

impl From<NamedFault> for RunEnd {
    ghost use Rattle.tool_runs.specs.Describing.{end_of_message};

    ghost from_gives = { λ fault end. end ≡ end_of_message fault };

    fn from(fault: NamedFault) -> Self {
        match fault {
            NamedFault::OutOfMemory => RunEnd::OutOfMemory,
            fault => RunEnd::MessageFault { fault },
        }
    }
}
