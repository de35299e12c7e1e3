use std::alloc::{AllocError, AllocFailed};
use std::fmt;
use thiserror::Error;

/// A member of a profile's object.
#[derive(Clone, Copy, Debug, PartialEq, Eq)]
pub enum MemberName {
    /// `manufacturer`
    Manufacturer,
    /// `model`
    Model,
    /// `revision`
    Revision,
    /// `msisdn`
    Msisdn,
    /// `imei`
    Imei,
    /// `operator`
    Operator,
    /// `mcc`
    Mcc,
    /// `mnc`
    Mnc,
    /// `signal`
    Signal,
    /// `sms`
    Sms,
    /// `phonebook`
    Phonebook,
}

impl MemberName {
    ghost use Rattle.std.specs.Prelude.{◌≡◌};
    ghost use Rattle.modem_profile.specs.Members.{member_text};

    /// The name that the member has in JSON.
    #[tactic(auto, unfolding(crate::specs::Members::member_text))]
    pub fn as_str(self) -> &'static str
        ensures { result.now ≡ member_text self }
    {
        match self {
            MemberName::Manufacturer => "manufacturer",
            MemberName::Model => "model",
            MemberName::Revision => "revision",
            MemberName::Msisdn => "msisdn",
            MemberName::Imei => "imei",
            MemberName::Operator => "operator",
            MemberName::Mcc => "mcc",
            MemberName::Mnc => "mnc",
            MemberName::Signal => "signal",
            MemberName::Sms => "sms",
            MemberName::Phonebook => "phonebook",
        }
    }
}

impl fmt::Display for MemberName {
    ghost use Rattle.std.specs.Prelude.{Some};
    ghost use Rattle.modem_profile.specs.Members.{member_text};

    ghost output = { λ name. Some (member_text name) };

    fn fmt<W: fmt::Write>(&self, f: &mut fmt::Formatter<W>) -> fmt::Result {
        f.write_str(self.as_str())
    }
}

/// Why a profile isn't read.
#[derive(Clone, Copy, Debug, PartialEq, Eq, Error)]
pub enum ProfileFault {
    /// The text isn't a JSON object.
    #[error("no JSON object")]
    Json,
    /// A member is of another kind, or is outside its limits.
    #[error("the member {0}")]
    Member(MemberName),
    #[error("out of memory")]
    OutOfMemory,
}

impl From<AllocError> for ProfileFault {
    ghost use Rattle.std.specs.Prelude.{◌≡◌};
    ghost use Rattle.modem_profile.specs.declared.fault.ProfileFault.TheVariants.{OutOfMemory};

    ghost from_gives = { λ _ fault. fault ≡ OutOfMemory };

    fn from(_: AllocError) -> Self {
        ProfileFault::OutOfMemory
    }
}

impl<T: Drop> From<AllocFailed<T>> for ProfileFault {
    ghost use Rattle.std.specs.Prelude.{◌≡◌};
    ghost use Rattle.modem_profile.specs.declared.fault.ProfileFault.TheVariants.{OutOfMemory};

    ghost from_gives = { λ _ fault. fault ≡ OutOfMemory };

    fn from(_: AllocFailed<T>) -> Self {
        ProfileFault::OutOfMemory
    }
}
