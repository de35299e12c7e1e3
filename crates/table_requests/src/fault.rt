ghost use Rattle.std.specs.Prelude.{◌≡◌};
ghost use Rattle.table_requests.specs.Faults.{IsNoRequest};

use crate::RequestFault;
use crate::pointer::{name_pointer, pointer_text};
use file_io::FileFault;
use kit_bytes::Octets;
use named_messages::NamedFault;
use std::alloc::{AllocError, Global};

/// Why JSON gives no values to a request.
#[derive(Drop)]
pub enum InputFault {
    /// It isn't an object.
    Json,
    /// No TLV of the message has the name to which this JSON Pointer leads.
    NoTlv(Octets),
    /// The value to which this JSON Pointer leads doesn't fit.
    Value(Octets),
    /// A message has no room for the TLVs.
    Long,
}

/// Why a file and JSON give no request.
#[derive(Drop)]
pub enum NoRequest {
    /// The file couldn't be read.
    ReadFault,
    /// The file is too long.
    Long,
    /// The file gives no message of the name.
    Message(NamedFault),
    Input(InputFault),
    OutOfMemory,
}

impl From<FileFault> for NoRequest {
    ghost use Rattle.table_requests.specs.Faults.{no_file};

    ghost from_gives = { λ fault none. none ≡ no_file fault };

    fn from(fault: FileFault) -> Self {
        match fault {
            FileFault::ReadFault => NoRequest::ReadFault,
            FileFault::Long => NoRequest::Long,
            FileFault::OutOfMemory => NoRequest::OutOfMemory,
        }
    }
}

impl From<NamedFault> for NoRequest {
    ghost use Rattle.table_requests.specs.Faults.{no_message};

    ghost from_gives = { λ fault none. none ≡ no_message fault };

    fn from(fault: NamedFault) -> Self {
        match fault {
            NamedFault::OutOfMemory => NoRequest::OutOfMemory,
            fault => NoRequest::Message(fault),
        }
    }
}

/// Why there is no request, for this fault.
pub(crate) fn no_request(alloc: Global, fault: RequestFault) -> NoRequest
    ensures { IsNoRequest fault result }
{
    match fault {
        RequestFault::Tables(fault) => NoRequest::from(fault),
        RequestFault::Json => NoRequest::Input(InputFault::Json),
        RequestFault::NoTlv(name) => match name_pointer(alloc, &name) {
            Ok(pointer) => NoRequest::Input(InputFault::NoTlv(pointer)),
            Err(AllocError) => NoRequest::OutOfMemory,
        },
        RequestFault::Misfit(path) => match pointer_text(alloc, path.as_slice()) {
            Ok(pointer) => NoRequest::Input(InputFault::Value(pointer)),
            Err(AllocError) => NoRequest::OutOfMemory,
        },
        RequestFault::TooLong => NoRequest::Input(InputFault::Long),
        RequestFault::OutOfMemory => NoRequest::OutOfMemory,
    }
}
