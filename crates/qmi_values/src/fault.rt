ghost use Rattle.std.specs.Prelude.{◌≡◌};
ghost use Rattle.qmi_values.specs.declared.fault.ValFault.TheVariants.{OutOfMemory};
ghost use Rattle.qmi_values.specs.declared.fault.EncodeFault.TheVariants as encode;

use std::alloc::{AllocError, AllocFailed};
use thiserror::Error;

/// Why a value isn't encoded.
#[derive(Clone, Copy, Debug, PartialEq, Eq, Error)]
pub enum EncodeFault {
    /// No bytes spell the value in the shape.
    #[error("the value doesn't fit the shape")]
    Misfit,
    #[error("out of memory")]
    OutOfMemory,
}

impl From<AllocError> for EncodeFault {
    ghost from_gives = { λ _ fault. fault ≡ encode.OutOfMemory };

    fn from(_: AllocError) -> Self {
        EncodeFault::OutOfMemory
    }
}

/// Why bytes aren't decoded.
#[derive(Clone, Copy, Debug, PartialEq, Eq, Error)]
pub enum ValFault {
    /// The field that begins at this place isn't whole. The fields are the numbers, the texts with
    /// their counts, and the counts of lists, in the order of the bytes.
    #[error("the field at byte {place} isn't whole")]
    Short { place: usize },
    /// The bytes before this place spell a value, and more are left.
    #[error("bytes are left from byte {place} on")]
    Over { place: usize },
    #[error("out of memory")]
    OutOfMemory,
}

impl From<AllocError> for ValFault {
    ghost from_gives = { λ _ fault. fault ≡ OutOfMemory };

    fn from(_: AllocError) -> Self {
        ValFault::OutOfMemory
    }
}

impl<T: Drop> From<AllocFailed<T>> for ValFault {
    ghost from_gives = { λ _ fault. fault ≡ OutOfMemory };

    fn from(_: AllocFailed<T>) -> Self {
        ValFault::OutOfMemory
    }
}
