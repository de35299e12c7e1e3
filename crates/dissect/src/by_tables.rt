ghost use Rattle.std.specs.Prelude.{◌≡◌, ◌≤◌, Ok, Err, IfOk, length};
ghost use Rattle.std.specs.Option.{option_copied};
ghost use Rattle.kit_io.specs.Causes.{Rose};
ghost use Rattle.message_tables.specs.View.{messages_in};
ghost use Rattle.message_tables.specs.WellMade.{AreSound};
ghost use Rattle.dissect.specs.Tables.{Dissects, HasTables, IsReadFault, TablesOf, TablesOfFile};

use crate::capture::dissect;
use crate::capture_end::CaptureEnd;
use file_io::{Files, read_file};
use kit_bytes::{Kind, PathText};
use kit_io::Sink;
use message_tables::{Tables, read_tables};
use qmi_services::built_in;
use std::alloc::Global;
use stream_lines::DissectEnd;

/// Shows the messages of the captured stream at a path in lines, by the tables of the file at another,
/// or by those that are built in where no file is named.
///
/// The tables are read first. Where they can't be read or aren't tables, the capture isn't touched.
pub fn dissect_by_tables<O: Sink, F: Files>(
    alloc: Global,
    kind: Kind,
    tables: Option<&PathText>,
    turns: u64,
    capture: &PathText,
    out: &mut O,
    files: &mut F,
) -> CaptureEnd
    requires { turns ≤ 1000000000000 }
    ensures dissects { Dissects kind (option_copied tables.entry) turns capture.now
        (record { files = F.calls files.old; out = O.taken out.old })
        (record { files = F.calls files.new; out = O.taken out.new })
        result }
    ensures read_fault { IsReadFault result → Rose (F.read_faults files.old) (F.read_faults files.new) }
    ensures write_fault { result ≡ CaptureEnd.Shown DissectEnd.WriteFault → Rose (O.faults out.old) (O.faults out.new) }
{
    let tables = match tables_of(alloc, tables, files) {
        Ok(tables) => tables,
        Err(end) => return end,
    };
    let capture = capture.value().as_str();
    let end = dissect(alloc, kind, &tables, capture, out, files, turns);
    CaptureEnd::Shown(end)
}

// The tables of the file at a path, or those that are built in.
fn tables_of<F: Files>(
    alloc: Global,
    path: Option<&PathText>,
    files: &mut F,
) -> Result<Tables, CaptureEnd>
    ensures tables { TablesOf (option_copied path.entry) (F.calls files.old) result (F.calls files.new) }
    ensures sound { IfOk result (λ tables. AreSound (messages_in tables)) }
    ensures read_fault { (end : CaptureEnd) → result ≡ Err end → IsReadFault end → Rose (F.read_faults files.old) (F.read_faults files.new) }
    ensures write_fault { ¬ (result ≡ Err (CaptureEnd.Shown DissectEnd.WriteFault)) }
    ensures later { F.read_faults files.old ≤ F.read_faults files.new }
{
    match path {
        Some(path) => tables_at(alloc, path.value().as_str(), files),
        None => {
            let tables = built_in(alloc)?;
            Ok(tables)
        }
    }
}

// The tables of the file at a path.
fn tables_at<F: Files>(alloc: Global, path: &str, files: &mut F) -> Result<Tables, CaptureEnd>
    ensures tables { TablesOfFile path.now (F.calls files.old) result (F.calls files.new) }
    ensures sound { IfOk result (λ tables. AreSound (messages_in tables)) }
    ensures read_fault { (end : CaptureEnd) → result ≡ Err end → IsReadFault end → Rose (F.read_faults files.old) (F.read_faults files.new) }
    ensures write_fault { ¬ (result ≡ Err (CaptureEnd.Shown DissectEnd.WriteFault)) }
    ensures later { F.read_faults files.old ≤ F.read_faults files.new }
{
    match read_file(alloc, files, path) {
        Ok(text) => tables_in(alloc, text.as_slice()),
        Err(fault) => Err(CaptureEnd::from(fault)),
    }
}

// The tables of a text.
fn tables_in(alloc: Global, text: &[u8]) -> Result<Tables, CaptureEnd>
    requires { length text.now ≤ 16777216 }
    ensures tables { HasTables text.now result }
    ensures sound { IfOk result (λ tables. AreSound (messages_in tables)) }
    ensures own { (end : CaptureEnd) → result ≡ Err end → ¬ IsReadFault end }
    ensures write_fault { ¬ (result ≡ Err (CaptureEnd.Shown DissectEnd.WriteFault)) }
{
    let tables = read_tables(alloc, text)?;
    Ok(tables)
}
