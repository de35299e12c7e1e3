ghost use Rattle.std.specs.Prelude.{◌≡◌, ◌≤◌, ◌++◌, decimal, length, IfOk, OnOk};
ghost use Rattle.std.specs.Str.{encode_utf8_all};
ghost use Rattle.kit_io.specs.Causes.{Rose};
ghost use Rattle.message_tables.specs.View.{message_view, messages_in};
ghost use Rattle.qmicli_print.specs.declared.shown.Shown.{Shown};
ghost use Rattle.qmicli_print.specs.Words.{word_of};
ghost use Rattle.tool_runs.specs.Describing.{Describes, PrintsTables, count_text, id_digits, kind_word, message_line, tables_text, word_if};

use crate::run_end::RunEnd;
use file_io::{Files, read_file};
use itoa::Buffer;
use kit_bytes::{Octets, PathText};
use kit_io::{Sink, WriteFault, write_all_to};
use message_tables::{Message, Tables, read_tables};
use print_text::hex_pair;
use qmicli_print::service_word;
use std::alloc::{AllocError, Global};

/// Reads the descriptions in the file at a path, and prints a line for each message.
pub(crate) fn describe<O: Sink, F: Files>(
    alloc: Global,
    path: &PathText,
    out: &mut O,
    files: &mut F,
) -> RunEnd
    ensures describes { Describes (encode_utf8_all path.now) (F.calls files.old) (F.calls files.new) (O.taken out.old) result (O.taken out.new) }
    // It doesn't give up by itself.
    ensures link_fault { ¬ (result ≡ RunEnd.LinkFault) }
    ensures start_fault { ¬ (result ≡ RunEnd.StartFault) }
    ensures read_fault { result ≡ RunEnd.ReadFault → Rose (F.read_faults files.old) (F.read_faults files.new) }
    ensures write_fault { result ≡ RunEnd.WriteFault → Rose (O.faults out.old) (O.faults out.new) }
{
    match read_file(alloc, files, path.value().as_str()) {
        Ok(text) => print_tables(alloc, text.as_slice(), out),
        Err(fault) => RunEnd::from(fault),
    }
}

// Prints a line for each message that descriptions describe.
fn print_tables<O: Sink>(alloc: Global, text: &[u8], out: &mut O) -> RunEnd
    requires { length text.now ≤ 16777216 }
    ensures prints { PrintsTables text.now (O.taken out.old) result (O.taken out.new) }
    ensures link_fault { ¬ (result ≡ RunEnd.LinkFault) }
    ensures start_fault { ¬ (result ≡ RunEnd.StartFault) }
    ensures read_fault { ¬ (result ≡ RunEnd.ReadFault) }
    ensures write_fault { result ≡ RunEnd.WriteFault → Rose (O.faults out.old) (O.faults out.new) }
{
    let tables = match read_tables(alloc, text) {
        Ok(tables) => tables,
        Err(fault) => return RunEnd::from(fault),
    };
    match tables_text(alloc, &tables) {
        Err(AllocError) => RunEnd::OutOfMemory,
        Ok(text) => match write_all_to(out, text.as_slice()) {
            Ok(()) => RunEnd::Done,
            Err(WriteFault) => RunEnd::WriteFault,
        },
    }
}

fn tables_text(alloc: Global, tables: &Tables) -> Result<Octets, AllocError>
    ensures { IfOk result (λ text. text ≡ tables_text (messages_in tables.now)) }
{
    let mut text = Octets::new(alloc);
    for index in 0..tables.len() {
        push_message(&mut text, tables.at(index))?;
    }
    if text.as_slice().is_empty() {
        text.extend_from_slice(b"ok\n")?;
    }
    Ok(text)
}

// Adds the line of a message.
#[tactic(auto, unfolding(crate::specs::Describing::message_line))]
fn push_message(text: &mut Octets, message: &Message) -> Result<(), AllocError>
    ensures { OnOk result (text.new ≡ text.old ++ message_line (message_view message.now)) }
{
    push_service(text, message.service)?;
    text.extend_from_slice(kind_word(message.indication).as_bytes())?;
    push_id(text, message.id)?;
    text.extend_from_slices(b" ", message.name.as_str().as_bytes())?;
    push_count(text, ": ", message.input.as_slice().len(), " in")?;
    push_count(text, ", ", message.output.as_slice().len(), " out\n")?;
    Ok(())
}

fn push_service(text: &mut Octets, service: u8) -> Result<(), AllocError>
    ensures { OnOk result (text.new ≡ text.old ++ word_if (word_of Shown.Service service)) }
{
    if let Some(word) = service_word(service) {
        text.extend_from_slice(word.as_bytes())?;
    }
    Ok(())
}

// Adds an id in four digits.
fn push_id(text: &mut Octets, id: u16) -> Result<(), AllocError>
    ensures { OnOk result (text.new ≡ text.old ++ id_digits id) }
{
    text.extend_from_slices(&hex_pair((id / 256) as u8), &hex_pair((id % 256) as u8))
}

#[tactic(auto, unfolding(crate::specs::Describing::count_text))]
fn push_count(text: &mut Octets, front: &str, count: usize, back: &str) -> Result<(), AllocError>
    ensures { OnOk result (text.new ≡ text.old ++ count_text front.now count back.now) }
{
    text.extend_from_slices(front.as_bytes(), Buffer::new().format(count).as_bytes())?;
    text.extend_from_slice(back.as_bytes())?;
    Ok(())
}

fn kind_word(indication: bool) -> &'static str
    ensures { result.now ≡ kind_word indication }
{
    if indication {
        " indication 0x"
    } else {
        " message 0x"
    }
}
