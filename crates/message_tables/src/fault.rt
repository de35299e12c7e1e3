use std::alloc::{AllocError, AllocFailed};
use std::fmt;
use thiserror::Error;

/// A member of the objects of a description.
#[derive(Clone, Copy, Debug, PartialEq, Eq)]
pub enum MemberName {
    /// `type`
    Kind,
    /// `name`
    Name,
    /// `service`
    Service,
    /// `id`
    Id,
    /// `input`
    Input,
    /// `output`
    Output,
    /// `format`
    Format,
    /// `contents`
    Contents,
    /// `array-element`
    ArrayElement,
    /// `size-prefix-format`
    SizePrefixFormat,
    /// `fixed-size`
    FixedSize,
    /// `guint-size`
    GuintSize,
    /// `endian`
    Endian,
    /// `sequence-prefix-format`
    SequencePrefixFormat,
    /// `common-ref`
    CommonRef,
}

impl MemberName {
    ghost use Rattle.std.specs.Prelude.{◌≡◌};
    ghost use Rattle.message_tables.specs.Members.{member_text};

    /// The name that the member has in JSON.
    #[tactic(auto, unfolding(crate::specs::Members::member_text))]
    pub fn as_str(self) -> &'static str
        ensures { result.now ≡ member_text self }
    {
        match self {
            MemberName::Kind => "type",
            MemberName::Name => "name",
            MemberName::Service => "service",
            MemberName::Id => "id",
            MemberName::Input => "input",
            MemberName::Output => "output",
            MemberName::Format => "format",
            MemberName::Contents => "contents",
            MemberName::ArrayElement => "array-element",
            MemberName::SizePrefixFormat => "size-prefix-format",
            MemberName::FixedSize => "fixed-size",
            MemberName::GuintSize => "guint-size",
            MemberName::Endian => "endian",
            MemberName::SequencePrefixFormat => "sequence-prefix-format",
            MemberName::CommonRef => "common-ref",
        }
    }
}

impl fmt::Display for MemberName {
    ghost use Rattle.std.specs.Prelude.{Some};
    ghost use Rattle.message_tables.specs.Members.{member_text};

    ghost output = { λ name. Some (member_text name) };

    fn fmt<W: fmt::Write>(&self, f: &mut fmt::Formatter<W>) -> fmt::Result {
        f.write_str(self.as_str())
    }
}

/// Why descriptions aren't read. Objects are counted from 0.
#[derive(Clone, Copy, Debug, PartialEq, Eq, Error)]
pub enum TableFault {
    /// The text isn't a JSON list of objects.
    #[error("no JSON list of objects")]
    Json,
    /// A member is missing, is of another kind, or is outside its range.
    #[error("object {object}: the member {name}")]
    Member { object: u32, name: MemberName },
    /// A format isn't known.
    #[error("object {object}: a format")]
    Format { object: u32 },
    /// An earlier message has this service, id and kind, or an id stands twice in a list of TLVs.
    #[error("object {object}: an id that comes twice")]
    Twice { object: u32 },
    /// More than 16 formats stand inside each other.
    #[error("object {object}: too many formats inside each other")]
    Deep { object: u32 },
    #[error("out of memory")]
    OutOfMemory,
}

impl From<AllocError> for TableFault {
    ghost use Rattle.std.specs.Prelude.{◌≡◌};
    ghost use Rattle.message_tables.specs.declared.fault.TableFault.TheVariants.{OutOfMemory};

    ghost from_gives = { λ _ fault. fault ≡ OutOfMemory };

    fn from(_: AllocError) -> Self {
        TableFault::OutOfMemory
    }
}

impl<T: Drop> From<AllocFailed<T>> for TableFault {
    ghost use Rattle.std.specs.Prelude.{◌≡◌};
    ghost use Rattle.message_tables.specs.declared.fault.TableFault.TheVariants.{OutOfMemory};

    ghost from_gives = { λ _ fault. fault ≡ OutOfMemory };

    fn from(_: AllocFailed<T>) -> Self {
        TableFault::OutOfMemory
    }
}

/// Why one object isn't read.
#[derive(Drop)]
pub enum ObjectFault {
    Member(MemberName),
    Format,
    Twice,
    Deep,
    OutOfMemory,
}

impl ObjectFault {
    ghost use Rattle.std.specs.Prelude.{◌≡◌};
    ghost use Rattle.message_tables.specs.Tables.{fault_at};

    /// The fault of the object with this number.
    pub(crate) fn at(self, object: u32) -> TableFault
        ensures { result ≡ fault_at object self }
    {
        match self {
            ObjectFault::Member(name) => TableFault::Member { object, name },
            ObjectFault::Format => TableFault::Format { object },
            ObjectFault::Twice => TableFault::Twice { object },
            ObjectFault::Deep => TableFault::Deep { object },
            ObjectFault::OutOfMemory => TableFault::OutOfMemory,
        }
    }
}

impl From<AllocError> for ObjectFault {
    ghost use Rattle.std.specs.Prelude.{◌≡◌};
    ghost use Rattle.message_tables.specs.declared.fault.ObjectFault.TheVariants.{OutOfMemory};

    ghost from_gives = { λ _ fault. fault ≡ OutOfMemory };

    fn from(_: AllocError) -> Self {
        ObjectFault::OutOfMemory
    }
}

impl<T: Drop> From<AllocFailed<T>> for ObjectFault {
    ghost use Rattle.std.specs.Prelude.{◌≡◌};
    ghost use Rattle.message_tables.specs.declared.fault.ObjectFault.TheVariants.{OutOfMemory};

    ghost from_gives = { λ _ fault. fault ≡ OutOfMemory };

    fn from(_: AllocFailed<T>) -> Self {
        ObjectFault::OutOfMemory
    }
}
