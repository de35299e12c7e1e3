ghost use Rattle.std.specs.Prelude.{◌≡◌};
ghost use Rattle.table_requests.specs.declared.request_fault.RequestFault.TheVariants.{OutOfMemory};

use json_values::{Path, ValueFault};
use kit_bytes::Text;
use named_messages::NamedFault;
use std::alloc::AllocError;
use thiserror::Error;

/// Why tables and JSON give no request.
#[derive(Debug, Drop, Error)]
pub enum RequestFault {
    /// The tables have no such message, or several, or it can't be read.
    #[error("tables: {0}")]
    Tables(NamedFault),
    /// The text isn't a JSON object.
    #[error("no JSON object")]
    Json,
    /// No TLV of the message has this name.
    #[error("no such TLV")]
    NoTlv(Text),
    /// The part of the JSON to which this path leads doesn't fit.
    #[error("a value doesn't fit")]
    Misfit(Path),
    /// A message has no room for the TLVs.
    #[error("too long")]
    TooLong,
    #[error("out of memory")]
    OutOfMemory,
}

impl From<AllocError> for RequestFault {
    ghost from_gives = { λ _ fault. fault ≡ OutOfMemory };

    fn from(_: AllocError) -> Self {
        RequestFault::OutOfMemory
    }
}

impl From<ValueFault> for RequestFault {
    ghost use Rattle.table_requests.specs.RequestFaults.{of_value};

    ghost from_gives = { λ value fault. fault ≡ of_value value };

    fn from(fault: ValueFault) -> Self {
        match fault {
            ValueFault::Misfit(path) => RequestFault::Misfit(path),
            ValueFault::OutOfMemory => RequestFault::OutOfMemory,
        }
    }
}

impl From<NamedFault> for RequestFault {
    ghost use Rattle.table_requests.specs.RequestFaults.{of_named};

    ghost from_gives = { λ named fault. fault ≡ of_named named };

    fn from(fault: NamedFault) -> Self {
        match fault {
            NamedFault::OutOfMemory => RequestFault::OutOfMemory,
            _ => RequestFault::Tables(fault),
        }
    }
}
