ghost use Rattle.std.specs.Prelude.{◌≡◌, ◌+◌, ◌^◌, ◌<◌, ◌≤◌, ◌++◌, [], ℕ, List, length, IfOk, OnOk};
ghost use Rattle.stream_lines.specs.Lines.{Showing};
ghost use Rattle.link_lines.specs.Lines.{added};
ghost use Rattle.link_lines.specs.Directions.{IsReady, StandsFor};

use framing::{Cutter, LONGEST_PIECE};
use kit_bytes::Octets;
use std::alloc::{AllocError, Global};
use stream_lines::{Shows, Stream, show_all};

/// One direction of a link, whose messages are shown as they come.
#[derive(Drop)]
pub(crate) struct Direction<S: Shows> {
    pub(crate) stream: Stream<S>,
    /// A message may begin like what is left.
    pub(crate) good: bool,
}

impl<S: Shows> Direction<S> {
    /// Nothing has come yet.
    pub(crate) fn open(alloc: Global, state: S) -> Result<Self, AllocError>
        ensures stands { IfOk result (λ direction. (shown : Showing) → S.shows shown [] state → StandsFor S.Frames.size S.shows shown [] direction.good direction.stream.cutter direction.stream.state direction.stream.place) }
        ensures ready { IfOk result (λ direction. IsReady S.Frames.size direction.good direction.stream.cutter) }
    {
        let cutter = Cutter::open(alloc)?;
        let stream = Stream {
            cutter,
            state,
            place: 0,
        };
        Ok(Direction { stream, good: true })
    }

    /// Adds the lines that it has more with these bytes.
    pub(crate) fn show(
        &mut self,
        alloc: Global,
        lines: &mut Octets,
        bytes: &[u8],
    ) -> Result<(), AllocError>
        requires ready { IsReady S.Frames.size self.old.good self.old.stream.cutter }
        ensures ready { OnOk result (IsReady S.Frames.size self.new.good self.new.stream.cutter) }
        ensures shows { OnOk result ((shown : Showing) (before : List ℕ) → StandsFor S.Frames.size S.shows shown before self.old.good self.old.stream.cutter self.old.stream.state self.old.stream.place → length before + length bytes.now < 2 ^ 64
            → (lines.new ≡ lines.old ++ added S.Frames.size shown before bytes.now) × StandsFor S.Frames.size S.shows shown (before ++ bytes.now) self.new.good self.new.stream.cutter self.new.stream.state self.new.stream.place) }
    {
        let mut rest = bytes;
        while !rest.is_empty() {
            let (piece, others) = rest.split_at(LONGEST_PIECE.min(rest.len()));
            self.show_piece(alloc, lines, piece)?;
            rest = others;
        }
        Ok(())
    }

    // The same of so many bytes as are cut at one time. Where no message begins any more nothing is shown.
    fn show_piece(
        &mut self,
        alloc: Global,
        lines: &mut Octets,
        piece: &[u8],
    ) -> Result<(), AllocError>
        requires short { length piece.now ≤ LONGEST_PIECE }
        requires ready { IsReady S.Frames.size self.old.good self.old.stream.cutter }
        ensures ready { OnOk result (IsReady S.Frames.size self.new.good self.new.stream.cutter) }
        ensures shows { OnOk result ((shown : Showing) (before : List ℕ) → StandsFor S.Frames.size S.shows shown before self.old.good self.old.stream.cutter self.old.stream.state self.old.stream.place → length before + length piece.now < 2 ^ 64
            → (lines.new ≡ lines.old ++ added S.Frames.size shown before piece.now) × StandsFor S.Frames.size S.shows shown (before ++ piece.now) self.new.good self.new.stream.cutter self.new.stream.state self.new.stream.place) }
    {
        if !self.good {
            return Ok(());
        }
        self.stream.cutter.push(piece);
        let mut more = Octets::new(alloc);
        self.good = show_all(alloc, &mut self.stream, &mut more)?;
        lines.extend_from_slice(more.as_slice())?;
        Ok(())
    }
}
