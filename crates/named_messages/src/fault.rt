use message_tables::{MemberName, ObjectFault};
use std::alloc::AllocError;
use thiserror::Error;

/// Why a description gives no message of a name.
#[derive(Clone, Copy, Debug, PartialEq, Eq, Error)]
pub enum NamedFault {
    /// The text isn't a JSON list of objects.
    #[error("no JSON list of objects")]
    Json,
    /// No message has the name.
    #[error("no such message")]
    Missing,
    /// More than one message has the name.
    #[error("several such messages")]
    Several,
    /// A member is missing, is of another kind, or is outside its range.
    #[error("the member {0}")]
    Member(MemberName),
    /// A format isn't known.
    #[error("a format")]
    Format,
    /// An id stands twice in a list of TLVs.
    #[error("an id that comes twice")]
    Twice,
    /// More than 16 formats stand inside each other.
    #[error("too many formats inside each other")]
    Deep,
    #[error("out of memory")]
    OutOfMemory,
}

impl From<ObjectFault> for NamedFault {
    ghost use Rattle.std.specs.Prelude.{◌≡◌};
    ghost use Rattle.named_messages.specs.Faults.{of_object};

    ghost from_gives = { λ object fault. fault ≡ of_object object };

    fn from(fault: ObjectFault) -> Self {
        match fault {
            ObjectFault::Member(name) => NamedFault::Member(name),
            ObjectFault::Format => NamedFault::Format,
            ObjectFault::Twice => NamedFault::Twice,
            ObjectFault::Deep => NamedFault::Deep,
            ObjectFault::OutOfMemory => NamedFault::OutOfMemory,
        }
    }
}

impl From<AllocError> for NamedFault {
    ghost use Rattle.std.specs.Prelude.{◌≡◌};
    ghost use Rattle.named_messages.specs.declared.fault.NamedFault.TheVariants.{OutOfMemory};

    ghost from_gives = { λ _ fault. fault ≡ OutOfMemory };

    fn from(_: AllocError) -> Self {
        NamedFault::OutOfMemory
    }
}
