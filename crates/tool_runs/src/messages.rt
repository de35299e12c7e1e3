ghost use Rattle.std.specs.Prelude.{◌≡◌};
ghost use Rattle.std.specs.Option.{option_copied};
ghost use Rattle.std.specs.Str.{encode_utf8_all};
ghost use Rattle.kit_io.specs.Causes.{Rose};
ghost use Rattle.tool_runs.specs.Describing.{DescribesFile, DescribesMessage, PrintsMessage};

use crate::describing::describe;
use crate::run_end::RunEnd;
use file_io::{Files, read_file};
use kit_bytes::{PathText, ShortText};
use kit_io::{Sink, WriteFault, write_all_to};
use named_messages::{message_text, read_message};
use std::alloc::{AllocError, Global};

/// Reads the descriptions in the file at a path, and prints a line for each message; or what the one of
/// a name takes and gives.
pub fn describe_file<O: Sink, F: Files>(
    alloc: Global,
    path: &PathText,
    message: Option<&ShortText>,
    out: &mut O,
    files: &mut F,
) -> RunEnd
    ensures describes { DescribesFile (encode_utf8_all path.now) (option_copied message.entry) (F.calls files.old) (F.calls files.new) (O.taken out.old) result (O.taken out.new) }
    // It doesn't give up by itself.
    ensures link_fault { ¬ (result ≡ RunEnd.LinkFault) }
    ensures start_fault { ¬ (result ≡ RunEnd.StartFault) }
    ensures read_fault { result ≡ RunEnd.ReadFault → Rose (F.read_faults files.old) (F.read_faults files.new) }
    ensures write_fault { result ≡ RunEnd.WriteFault → Rose (O.faults out.old) (O.faults out.new) }
{
    match message {
        Some(name) => describe_message(alloc, path, name, out, files),
        None => describe(alloc, path, out, files),
    }
}

fn describe_message<O: Sink, F: Files>(
    alloc: Global,
    path: &PathText,
    name: &ShortText,
    out: &mut O,
    files: &mut F,
) -> RunEnd
    ensures describes { DescribesMessage (encode_utf8_all path.now) (encode_utf8_all name.now) (F.calls files.old) (F.calls files.new) (O.taken out.old) result (O.taken out.new) }
    ensures link_fault { ¬ (result ≡ RunEnd.LinkFault) }
    ensures start_fault { ¬ (result ≡ RunEnd.StartFault) }
    ensures read_fault { result ≡ RunEnd.ReadFault → Rose (F.read_faults files.old) (F.read_faults files.new) }
    ensures write_fault { result ≡ RunEnd.WriteFault → Rose (O.faults out.old) (O.faults out.new) }
{
    match read_file(alloc, files, path.value().as_str()) {
        Ok(text) => print_message(alloc, text.as_slice(), name.value().as_str(), out),
        Err(fault) => RunEnd::from(fault),
    }
}

// Prints what the message of a name takes and gives.
fn print_message<O: Sink>(alloc: Global, text: &[u8], name: &str, out: &mut O) -> RunEnd
    ensures prints { PrintsMessage text.now name.now (O.taken out.old) result (O.taken out.new) }
    ensures link_fault { ¬ (result ≡ RunEnd.LinkFault) }
    ensures start_fault { ¬ (result ≡ RunEnd.StartFault) }
    ensures read_fault { ¬ (result ≡ RunEnd.ReadFault) }
    ensures write_fault { result ≡ RunEnd.WriteFault → Rose (O.faults out.old) (O.faults out.new) }
{
    let message = match read_message(alloc, text, name) {
        Ok(message) => message,
        Err(fault) => return RunEnd::from(fault),
    };
    match message_text(alloc, &message) {
        Err(AllocError) => RunEnd::OutOfMemory,
        Ok(text) => match write_all_to(out, text.as_slice()) {
            Ok(()) => RunEnd::Done,
            Err(WriteFault) => RunEnd::WriteFault,
        },
    }
}
