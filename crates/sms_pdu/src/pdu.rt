ghost use Rattle.std.specs.Prelude.{◌≡◌};
ghost use Rattle.sms_pdu.specs.declared.pdu.PduFault.TheVariants.{OutOfMemory};

use kit_bytes::{Octets, Text};
use std::alloc::AllocError;
use thiserror::Error;

/// A short message, as its body tells it.
#[derive(Drop)]
pub struct Pdu {
    /// Whether it came from the network (DELIVER), or goes to it (SUBMIT).
    pub deliver: bool,
    /// Who sent it, or to whom it goes: digits, behind `+` if they are an international number, or
    /// a text.
    pub address: Text,
    /// When the network got it, as `YY-MM-DD hh:mm:ss SQQ`, the quarters of an hour last; empty
    /// where it goes to the network.
    pub time: Text,
    pub part: Option<Part>,
    pub body: Body,
}

/// Which part of a longer message it is.
#[derive(Clone, Copy, PartialEq, Eq)]
pub struct Part {
    /// What the parts of one message have in common.
    pub reference: u16,
    /// Whether the reference has 16 bits on the wire.
    pub wide: bool,
    pub total: u8,
    /// From 1 to the total.
    pub place: u8,
}

/// What a message says.
#[derive(Drop)]
pub enum Body {
    Written(Text),
    /// Octets that are no text.
    Raw(Octets),
}

/// Why bytes aren't read as a message's body.
#[derive(Clone, Copy, Debug, PartialEq, Eq, Error)]
pub enum PduFault {
    /// It is neither DELIVER nor SUBMIT.
    #[error("it is neither a DELIVER nor a SUBMIT")]
    Kind,
    /// The field that begins at this place isn't whole.
    #[error("the field at byte {place} isn't whole")]
    Short { place: usize },
    #[error("out of memory")]
    OutOfMemory,
}

impl From<AllocError> for PduFault {
    ghost from_gives = { λ _ fault. fault ≡ OutOfMemory };

    fn from(_: AllocError) -> Self {
        PduFault::OutOfMemory
    }
}
