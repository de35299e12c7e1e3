ghost use Rattle.std.specs.Prelude.{◌≡◌, ◌≤◌};
ghost use Rattle.kit_io.specs.Causes.{Rose};
ghost use Rattle.message_tables.specs.View.{messages_in};
ghost use Rattle.message_tables.specs.WellMade.{AreSound};
ghost use Rattle.stream_lines.specs.Capture.{GrowBy, ShowsCapture};
ghost use Rattle.dissect.specs.Stream.{lines, size_by};

use crate::mbim::MbimLines;
use crate::qmi::QmiLines;
use file_io::Files;
use kit_bytes::Kind;
use kit_io::Sink;
use message_tables::Tables;
use std::alloc::{AllocError, Global};
use stream_lines::{DissectEnd, show_capture};

/// Shows the messages of the captured stream at a path, which is of one direction, in lines. The lines
/// of what a read gave are written before the next read.
pub fn dissect<O: Sink, F: Files>(
    alloc: Global,
    kind: Kind,
    tables: &Tables,
    path: &str,
    out: &mut O,
    files: &mut F,
    turns: u64,
) -> DissectEnd
    requires turns { turns ≤ 1000000000000 }
    requires sound { AreSound (messages_in tables.now) }
    ensures shows { GrowBy (ShowsCapture (size_by kind) (lines kind (messages_in tables.now)) turns path.now result) (F.calls files.old) (O.taken out.old) (F.calls files.new) (O.taken out.new) }
    ensures read_fault { result ≡ DissectEnd.ReadFault → Rose (F.read_faults files.old) (F.read_faults files.new) }
    ensures write_fault { result ≡ DissectEnd.WriteFault → Rose (O.faults out.old) (O.faults out.new) }
{
    match kind {
        Kind::Qmi => show_capture(alloc, QmiLines::new(tables), path, out, files, turns),
        Kind::Mbim => match MbimLines::open(alloc) {
            Ok(state) => show_capture(alloc, state, path, out, files, turns),
            Err(AllocError) => DissectEnd::OutOfMemory,
        },
    }
}
