ghost use Rattle.std.specs.Prelude.{◌≡◌, ◌≤◌, Err, IfOk, length};
ghost use Rattle.std.specs.Str.{encode_utf8_all};
ghost use Rattle.kit_io.specs.Causes.{Rose};
ghost use Rattle.message_tables.specs.View.{message_view};
ghost use Rattle.message_tables.specs.WellMade.{IsSoundMessage};
ghost use Rattle.table_requests.specs.View.{asked_view};
ghost use Rattle.table_requests.specs.Files.{Gives, OfFile, request_in};

use crate::fault::no_request;
use crate::{Asked, NoRequest, request_by};
use file_io::{Files, read_file};
use kit_bytes::{PathText, ShortText, Text};
use qmux_frame::LONGEST_TLVS;
use std::alloc::Global;

/// The request of the message of a name that the file at a path describes, with the values that JSON gives.
pub fn request_in_file<F: Files>(
    alloc: Global,
    files: &mut F,
    path: &PathText,
    name: &ShortText,
    input: &Text,
) -> Result<Asked, NoRequest>
    ensures reads { OfFile asked_view (request_in (encode_utf8_all name.now) (encode_utf8_all input.now)) (encode_utf8_all path.now) (F.calls files.old) result (F.calls files.new) }
    ensures short { IfOk result (λ asked. length asked.tlvs ≤ LONGEST_TLVS) }
    ensures sound { IfOk result (λ asked. IsSoundMessage (message_view asked.message)) }
    ensures read_fault { result ≡ Err NoRequest.ReadFault → Rose (F.read_faults files.old) (F.read_faults files.new) }
{
    match read_file(alloc, files, path.value().as_str()) {
        Ok(tables) => {
            let (name, input) = (name.value().as_str(), input.as_str().as_bytes());
            request_of(alloc, tables.as_slice(), name, input)
        }
        Err(fault) => Err(NoRequest::from(fault)),
    }
}

// The request of the message of a name that tables describe.
fn request_of(alloc: Global, tables: &[u8], name: &str, input: &[u8]) -> Result<Asked, NoRequest>
    ensures gives { Gives asked_view (request_in name.now input.now tables.now) result }
    ensures short { IfOk result (λ asked. length asked.tlvs ≤ LONGEST_TLVS) }
    ensures sound { IfOk result (λ asked. IsSoundMessage (message_view asked.message)) }
    ensures read_fault { ¬ (result ≡ Err NoRequest.ReadFault) }
{
    match request_by(alloc, tables, name, input) {
        Ok(asked) => Ok(asked),
        Err(fault) => Err(no_request(alloc, fault)),
    }
}
