ghost use Rattle.std.specs.Prelude.{◌≡◌, ◌≤◌, [], ℕ, List};
ghost use Rattle.framing.specs.Framing.{IsPartial};
ghost use Rattle.kit_io.specs.Causes.{Rose};
ghost use Rattle.stream_lines.specs.Capture.{GrowBy, ShowsReads};
ghost use Rattle.stream_lines.specs.Lines.{Showing, lines_by};
ghost use Rattle.stream_lines.specs.Pieces.{Stands};

use crate::DissectEnd;
use crate::end::end_of_stream;
use crate::shows::Shows;
use crate::stream::{Stream, show_piece};
use file_io::{Files, READ_ROOM};
use kit_io::{Failed, Sink};
use std::alloc::Global;

/// Shows what each read of the open file gives.
pub(crate) fn show_reads<S: Shows, O: Sink, F: Files>(
    alloc: Global,
    stream: &mut Stream<S>,
    out: &mut O,
    files: &mut F,
    turns: u64,
) -> DissectEnd
    requires turns { turns ≤ 1000000000000 }
    requires partial { IsPartial S.Frames.size stream.old.cutter.rest }
    ensures shows { (shown : Showing) → Stands S.Frames.size S.shows shown [] stream.old.cutter stream.old.state stream.old.place
        → GrowBy (ShowsReads S.Frames.size (lines_by S.Frames.size shown) turns result) (F.calls files.old) (O.taken out.old) (F.calls files.new) (O.taken out.new) }
    ensures read_fault { result ≡ DissectEnd.ReadFault → Rose (F.read_faults files.old) (F.read_faults files.new) }
    ensures write_fault { result ≡ DissectEnd.WriteFault → Rose (O.faults out.old) (O.faults out.new) }
    ensures later_read { F.read_faults files.old ≤ F.read_faults files.new }
{
    let mut buffer = [0u8; READ_ROOM];
    let mut came = 0;
    for _ in 0..turns {
        let count = match files.read(&mut buffer) {
            Ok(count) => count,
            Err(Failed) => return DissectEnd::ReadFault,
        };
        if count == 0 {
            return end_of_stream(came, stream.place);
        }
        if let Err(end) = show_piece(alloc, stream, out, &buffer[..count]) {
            return end;
        }
        came += count as u64;
    }
    DissectEnd::TurnsSpent
}
