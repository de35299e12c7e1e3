ghost use Rattle.std.specs.Prelude.{◌≡◌};
ghost use Rattle.sms_pdu.specs.declared.parts.SubmitFault.TheVariants.{OutOfMemory};

use kit_bytes::Octets;
use std::alloc::AllocError;
use std::marker::Model;
use thiserror::Error;

/// Why no message is made of a number and a text.
#[derive(Clone, Copy, Debug, PartialEq, Eq, Error)]
pub enum SubmitFault {
    /// The number isn't 1 to 20 digits with at most one `+` before them.
    #[error("the number isn't 1 to 20 digits, perhaps behind a plus")]
    Number,
    /// The text takes more than 255 parts.
    #[error("the text takes more than 255 parts")]
    TooLong,
    #[error("out of memory")]
    OutOfMemory,
}

impl From<AllocError> for SubmitFault {
    ghost from_gives = { λ _ fault. fault ≡ OutOfMemory };

    fn from(_: AllocError) -> Self {
        SubmitFault::OutOfMemory
    }
}

/// The bodies of messages, in the order in which they are sent.
#[derive(Drop)]
pub struct PduList {
    pdus: Vec<Octets>,
}

impl Model for PduList {
    ghost use Rattle.std.specs.Prelude.{ℕ, List};

    ghost Value = { List (List ℕ) };

    ghost view = { λ list. list.pdus.items };
}

impl PduList {
    pub fn as_slice(&self) -> &[Octets]
        ensures { result.now ≡ self.now }
    {
        &self.pdus
    }

    /// Gives the vector back that holds the bodies.
    pub fn into_vec(self) -> Vec<Octets>
        ensures { result.items ≡ self }
    {
        self.pdus
    }
}

impl From<Vec<Octets>> for PduList {
    ghost from_gives = { λ pdus list. list ≡ pdus.items };

    fn from(pdus: Vec<Octets>) -> Self {
        PduList { pdus }
    }
}
