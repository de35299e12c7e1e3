ghost use Rattle.std.specs.Prelude.{◌≡◌};

use file_io::FileFault;
use hub_io::ServeEnd;
use modem_profile::ProfileFault;
use modem_rules::RulesFault;

/// How simulating a modem ended.
#[derive(Clone, Copy, PartialEq, Eq)]
pub enum SimEnd {
    /// Its clients were served, until this.
    Served(ServeEnd),
    /// The hub couldn't be opened.
    HubFault,
    /// The file of the profile or of the rules couldn't be read.
    ReadFault,
    /// The profile isn't read, for this fault or since its file is too long.
    ProfileFault(Option<ProfileFault>),
    /// The rules aren't read, for this fault or since their file is too long.
    RulesFault(Option<RulesFault>),
    /// No memory was there to begin with.
    OutOfMemory,
}

impl From<FileFault> for SimEnd {
    ghost use Rattle.sim_runs.specs.Simulating.{end_of_file};

    ghost from_gives = { λ fault end. end ≡ end_of_file fault };

    fn from(fault: FileFault) -> Self {
        match fault {
            FileFault::ReadFault => SimEnd::ReadFault,
            FileFault::Long => SimEnd::ProfileFault(None),
            FileFault::OutOfMemory => SimEnd::OutOfMemory,
        }
    }
}

impl From<ProfileFault> for SimEnd {
    ghost use Rattle.sim_runs.specs.Simulating.{end_of_profile};

    ghost from_gives = { λ fault end. end ≡ end_of_profile fault };

    fn from(fault: ProfileFault) -> Self {
        match fault {
            ProfileFault::OutOfMemory => SimEnd::OutOfMemory,
            fault => SimEnd::ProfileFault(Some(fault)),
        }
    }
}

impl From<RulesFault> for SimEnd {
    ghost use Rattle.sim_runs.specs.Simulating.{end_of_rules};

    ghost from_gives = { λ fault end. end ≡ end_of_rules fault };

    fn from(fault: RulesFault) -> Self {
        match fault {
            RulesFault::OutOfMemory => SimEnd::OutOfMemory,
            fault => SimEnd::RulesFault(Some(fault)),
        }
    }
}
