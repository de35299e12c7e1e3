ghost use Rattle.std.specs.Prelude.{◌≡◌};
ghost use Rattle.mbim_fields.specs.declared.fault.EncodeFault.TheVariants as encode;
ghost use Rattle.mbim_fields.specs.declared.fault.FieldFault.TheVariants.{OutOfMemory};

use std::alloc::AllocError;
use thiserror::Error;

/// Why values aren't encoded.
#[derive(Clone, Copy, Debug, PartialEq, Eq, Error)]
pub enum EncodeFault {
    /// The values haven't the layout, or an offset or a size doesn't fit 4 bytes.
    #[error("the values don't fit the layout")]
    Misfit,
    /// There is no memory for the buffer.
    #[error("out of memory")]
    OutOfMemory,
}

impl From<AllocError> for EncodeFault {
    ghost from_gives = { λ _ fault. fault ≡ encode.OutOfMemory };

    fn from(_: AllocError) -> Self {
        EncodeFault::OutOfMemory
    }
}

/// Why a buffer isn't decoded. A place is that of a field, a pair or an offset, counted in bytes from
/// the start of the buffer.
#[derive(Clone, Copy, Debug, PartialEq, Eq, Error)]
pub enum FieldFault {
    /// What stands at this place, or what it points at, isn't inside its structure.
    #[error("the field at byte {place} leaves its structure")]
    OutOfRange { place: usize },
    /// The pair at this place points at a text that isn't UTF-16.
    #[error("the text of the pair at byte {place} isn't UTF-16")]
    Lone { place: usize },
    /// What is read counts as more than 16 MiB: 32 bytes for each value, and the bytes that it has.
    #[error("the values are too many")]
    TooLarge,
    /// There is no memory for the values.
    #[error("out of memory")]
    OutOfMemory,
}

impl From<AllocError> for FieldFault {
    ghost from_gives = { λ _ fault. fault ≡ OutOfMemory };

    fn from(_: AllocError) -> Self {
        FieldFault::OutOfMemory
    }
}
