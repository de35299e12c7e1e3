use std::alloc::{AllocError, AllocFailed};
use std::fmt;
use thiserror::Error;

/// A list of rules, by the name of its member.
#[derive(Clone, Copy, Debug, PartialEq, Eq)]
pub enum RuleList {
    /// `answers`
    Answers,
    /// `faults`
    Faults,
    /// `indications`
    Indications,
}

impl RuleList {
    ghost use Rattle.std.specs.Prelude.{◌≡◌};
    ghost use Rattle.modem_rules.specs.Lists.{list_text};

    /// The name that the member has in JSON.
    #[tactic(auto, unfolding(crate::specs::Lists::list_text))]
    pub fn as_str(self) -> &'static str
        ensures { result.now ≡ list_text self }
    {
        match self {
            RuleList::Answers => "answers",
            RuleList::Faults => "faults",
            RuleList::Indications => "indications",
        }
    }
}

impl fmt::Display for RuleList {
    ghost use Rattle.std.specs.Prelude.{Some};
    ghost use Rattle.modem_rules.specs.Lists.{list_text};

    ghost output = { λ list. Some (list_text list) };

    fn fmt<W: fmt::Write>(&self, f: &mut fmt::Formatter<W>) -> fmt::Result {
        f.write_str(self.as_str())
    }
}

/// Why rules aren't read.
#[derive(Clone, Copy, Debug, PartialEq, Eq, Error)]
pub enum RulesFault {
    /// The text isn't a JSON object.
    #[error("no JSON object")]
    Json,
    /// The member isn't a list.
    #[error("the member {0}")]
    NoList(RuleList),
    /// This value of the list, counted from 0, is no rule.
    #[error("the member {0} at {1}")]
    NoRule(RuleList, u64),
    #[error("out of memory")]
    OutOfMemory,
}

impl From<AllocError> for RulesFault {
    ghost use Rattle.std.specs.Prelude.{◌≡◌};
    ghost use Rattle.modem_rules.specs.declared.fault.RulesFault.TheVariants.{OutOfMemory};

    ghost from_gives = { λ _ fault. fault ≡ OutOfMemory };

    fn from(_: AllocError) -> Self {
        RulesFault::OutOfMemory
    }
}

impl<T: Drop> From<AllocFailed<T>> for RulesFault {
    ghost use Rattle.std.specs.Prelude.{◌≡◌};
    ghost use Rattle.modem_rules.specs.declared.fault.RulesFault.TheVariants.{OutOfMemory};

    ghost from_gives = { λ _ fault. fault ≡ OutOfMemory };

    fn from(_: AllocFailed<T>) -> Self {
        RulesFault::OutOfMemory
    }
}
