ghost use Rattle.std.specs.Prelude.{◌≡◌, ◌+◌, ◌^◌, ◌<◌, ◌≤◌, ℕ, List, Err, true, not, length, IfOk, OnOk};
ghost use Rattle.framing.specs.Cutting.{cut};
ghost use Rattle.framing.specs.Framing.{IsPartial, is_invalid};
ghost use Rattle.kit_io.specs.Causes.{Rose};
ghost use Rattle.stream_lines.specs.Lines.{Showing, place_behind};
ghost use Rattle.stream_lines.specs.Pieces.{ShowsAll, ShowsPiece, Stands};

use crate::DissectEnd;
use crate::shows::Shows;
use framing::{Cutter, LONGEST_PIECE};
use kit_bytes::{Cut, Octets};
use kit_io::{Sink, WriteFault, write_all_to};
use std::alloc::{AllocError, Global};

/// A stream that is shown as it comes.
#[derive(Drop)]
pub struct Stream<S: Shows> {
    pub cutter: Cutter<S::Frames>,
    pub state: S,
    /// Where the next message begins.
    pub place: u64,
}

/// Writes the lines of the messages that the next piece completes. It ends where that fails, or where
/// no message begins like what is left.
pub(crate) fn show_piece<S: Shows, O: Sink>(
    alloc: Global,
    stream: &mut Stream<S>,
    out: &mut O,
    piece: &[u8],
) -> Result<(), DissectEnd>
    requires partial { IsPartial S.Frames.size stream.old.cutter.rest }
    requires short { length piece.now ≤ LONGEST_PIECE }
    ensures shows { (shown : Showing) (bytes : List ℕ) → Stands S.Frames.size S.shows shown bytes stream.old.cutter stream.old.state stream.old.place → length bytes + length piece.now < 2 ^ 64
        → ShowsPiece S.Frames.size S.shows shown bytes piece.now (O.taken out.old) result stream.new.cutter stream.new.state stream.new.place (O.taken out.new) }
    ensures partial { OnOk result (IsPartial S.Frames.size stream.new.cutter.rest) }
    ensures write_fault { result ≡ Err DissectEnd.WriteFault → Rose (O.faults out.old) (O.faults out.new) }
    ensures no_read_fault { ¬ (result ≡ Err DissectEnd.ReadFault) }
    ensures later { O.faults out.old ≤ O.faults out.new }
{
    stream.cutter.push(piece);
    let mut lines = Octets::new(alloc);
    let good = match show_all(alloc, stream, &mut lines) {
        Ok(good) => good,
        Err(AllocError) => return Err(DissectEnd::OutOfMemory),
    };
    if let Err(WriteFault) = write_all_to(out, lines.as_slice()) {
        return Err(DissectEnd::WriteFault);
    }
    if good {
        return Ok(());
    }
    Err(DissectEnd::Broken {
        place: stream.place,
    })
}

/// Shows the whole messages, and says whether the stream is good behind them.
pub fn show_all<S: Shows>(
    alloc: Global,
    stream: &mut Stream<S>,
    lines: &mut Octets,
) -> Result<bool, AllocError>
    ensures good { IfOk result (λ good. good ≡ not (is_invalid (S.Frames.size (cut S.Frames.size stream.old.cutter.rest).rest))) }
    ensures rest { IfOk result (λ good. stream.new.cutter.rest ≡ (cut S.Frames.size stream.old.cutter.rest).rest) }
    ensures partial { IfOk result (λ good. good ≡ true → IsPartial S.Frames.size stream.new.cutter.rest) }
    ensures shows { OnOk result ((shown : Showing) (before : List (List ℕ)) → S.shows shown before stream.old.state → stream.old.place ≡ place_behind before → place_behind before + length stream.old.cutter.rest < 2 ^ 64
        → ShowsAll S.shows shown before (cut S.Frames.size stream.old.cutter.rest).messages stream.new.state stream.new.place lines.old lines.new) }
{
    loop {
        match stream.cutter.next() {
            Cut::Whole(span) => {
                let message = stream.cutter.bytes(span);
                stream.state.show(alloc, lines, stream.place, message)?;
                stream.place = stream.place.saturating_add(message.len() as u64);
            }
            Cut::NeedMore => return Ok(true),
            Cut::Bad(_) => return Ok(false),
        }
    }
}
