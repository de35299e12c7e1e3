ghost use Rattle.std.specs.Prelude.{◌≡◌, ◌≤◌, Err, IfOk};
ghost use Rattle.std.specs.List.{AllByRecursion};
ghost use Rattle.std.specs.Str.{encode_utf8_all};
ghost use Rattle.kit_io.specs.Causes.{Rose};
ghost use Rattle.message_tables.specs.View.{messages_in};
ghost use Rattle.message_tables.specs.WellMade.{IsSoundMessage};
ghost use Rattle.table_requests.specs.Files.{Gives, OfFile};
ghost use Rattle.table_following.specs.Files.{told_in};

use file_io::{Files, read_file};
use kit_bytes::PathText;
use message_tables::Message;
use named_messages::read_indications;
use std::alloc::Global;
use table_requests::NoRequest;

/// The indications that the file at a path tells.
pub fn indications_in_file<F: Files>(
    alloc: Global,
    files: &mut F,
    path: &PathText,
) -> Result<Vec<Message>, NoRequest>
    ensures reads { OfFile (λ told. messages_in told.items) told_in (encode_utf8_all path.now) (F.calls files.old) result (F.calls files.new) }
    ensures sound { IfOk result (λ told. AllByRecursion IsSoundMessage (messages_in told.items)) }
    ensures read_fault { result ≡ Err NoRequest.ReadFault → Rose (F.read_faults files.old) (F.read_faults files.new) }
    ensures later_read { F.read_faults files.old ≤ F.read_faults files.new }
{
    match read_file(alloc, files, path.value().as_str()) {
        Ok(text) => told_in(alloc, text.as_slice()),
        Err(fault) => Err(NoRequest::from(fault)),
    }
}

fn told_in(alloc: Global, text: &[u8]) -> Result<Vec<Message>, NoRequest>
    ensures gives { Gives (λ told. messages_in told.items) (told_in text.now) result }
    ensures sound { IfOk result (λ told. AllByRecursion IsSoundMessage (messages_in told.items)) }
    ensures read_fault { ¬ (result ≡ Err NoRequest.ReadFault) }
{
    match read_indications(alloc, text) {
        Ok(told) => Ok(told),
        Err(fault) => Err(NoRequest::from(fault)),
    }
}
