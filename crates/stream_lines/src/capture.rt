ghost use Rattle.std.specs.Prelude.{◌≡◌, ◌≤◌, [], ℕ, List};
ghost use Rattle.kit_io.specs.Causes.{Rose};
ghost use Rattle.stream_lines.specs.Capture.{GrowBy, ShowsCapture};
ghost use Rattle.stream_lines.specs.Lines.{Showing, lines_by};

use crate::DissectEnd;
use crate::reads::show_reads;
use crate::shows::Shows;
use crate::stream::Stream;
use file_io::{Files, Side};
use framing::Cutter;
use kit_io::{Failed, Sink};
use std::alloc::{AllocError, Global};

/// Shows the messages of the captured stream at a path, in at most so many reads. The lines of what a
/// read gave are written before the next read.
pub fn show_capture<S: Shows, O: Sink, F: Files>(
    alloc: Global,
    state: S,
    path: &str,
    out: &mut O,
    files: &mut F,
    turns: u64,
) -> DissectEnd
    requires turns { turns ≤ 1000000000000 }
    ensures shows { (shown : Showing) → S.shows shown [] state
        → GrowBy (ShowsCapture S.Frames.size (lines_by S.Frames.size shown) turns path.now result) (F.calls files.old) (O.taken out.old) (F.calls files.new) (O.taken out.new) }
    ensures read_fault { result ≡ DissectEnd.ReadFault → Rose (F.read_faults files.old) (F.read_faults files.new) }
    ensures write_fault { result ≡ DissectEnd.WriteFault → Rose (O.faults out.old) (O.faults out.new) }
{
    let cutter = match Cutter::open(alloc) {
        Ok(cutter) => cutter,
        Err(AllocError) => return DissectEnd::OutOfMemory,
    };
    let mut stream = Stream {
        cutter,
        state,
        place: 0,
    };
    if let Err(Failed) = files.open(path, Side::Read) {
        return DissectEnd::ReadFault;
    }
    let end = show_reads(alloc, &mut stream, out, files, turns);
    files.close();
    end
}
