ghost use Rattle.std.specs.Prelude.{◌≡◌};
ghost use Rattle.tlv_codec.specs.declared.tlv.TlvFault.TheVariants.{OutOfMemory};

use std::alloc::{AllocError, AllocFailed};
use thiserror::Error;

/// A TLV in a list of bytes: its value is the part from `start` up to `end`.
#[derive(Clone, Copy, PartialEq, Eq)]
pub struct Tlv {
    pub kind: u8,
    pub start: usize,
    pub end: usize,
}

/// Why bytes aren't read as a list of TLVs.
#[derive(Clone, Copy, Debug, PartialEq, Eq, Error)]
pub enum TlvFault {
    /// The TLV that begins at this place has less than the three bytes of its head.
    #[error("the TLV at byte {place} has no whole head")]
    ShortHead { place: usize },
    /// The TLV that begins at this place has less than its value.
    #[error("the TLV at byte {place} has no whole value")]
    ShortValue { place: usize },
    #[error("out of memory")]
    OutOfMemory,
}

impl From<AllocError> for TlvFault {
    ghost from_gives = { λ _ fault. fault ≡ OutOfMemory };

    fn from(_: AllocError) -> Self {
        TlvFault::OutOfMemory
    }
}

impl<T: Drop> From<AllocFailed<T>> for TlvFault {
    ghost from_gives = { λ _ fault. fault ≡ OutOfMemory };

    fn from(_: AllocFailed<T>) -> Self {
        TlvFault::OutOfMemory
    }
}
