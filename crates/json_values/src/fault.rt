ghost use Rattle.std.specs.Prelude.{◌≡◌, []};
ghost use Rattle.json_values.specs.declared.fault.ValueFault.TheVariants.{Misfit, OutOfMemory};

use crate::{Path, Step};
use std::alloc::{AllocError, AllocFailed, Global};
use thiserror::Error;

/// Why JSON gives no value of a shape.
#[derive(Debug, Drop, Error)]
pub enum ValueFault {
    /// The part to which this path leads doesn't fit.
    #[error("a value doesn't fit")]
    Misfit(Path),
    #[error("out of memory")]
    OutOfMemory,
}

impl ValueFault {
    ghost use Rattle.json_values.specs.Answers.{IsUnder};

    /// The whole value doesn't fit.
    pub(crate) fn whole(alloc: Global) -> ValueFault
        ensures { result ≡ Misfit [] }
    {
        ValueFault::Misfit(Path::new(alloc))
    }

    /// The same, seen from one step further out.
    pub(crate) fn under(self, step: Step) -> ValueFault
        ensures { IsUnder step self result }
    {
        match self {
            ValueFault::Misfit(path) => match path.under(step) {
                Ok(longer) => ValueFault::Misfit(longer),
                Err(AllocError) => ValueFault::OutOfMemory,
            },
            ValueFault::OutOfMemory => ValueFault::OutOfMemory,
        }
    }
}

impl From<AllocError> for ValueFault {
    ghost from_gives = { λ _ fault. fault ≡ OutOfMemory };

    fn from(_: AllocError) -> Self {
        ValueFault::OutOfMemory
    }
}

impl<T: Drop> From<AllocFailed<T>> for ValueFault {
    ghost from_gives = { λ _ fault. fault ≡ OutOfMemory };

    fn from(_: AllocFailed<T>) -> Self {
        ValueFault::OutOfMemory
    }
}
