ghost use Rattle.std.specs.Prelude.{◌≡◌, ◌≤◌, [], ◌++◌, IfOk, length};
ghost use Rattle.framing.specs.Framing.{IsPartial};
ghost use Rattle.link_session.specs.Marks.{piece_marks};
ghost use Rattle.link_session.specs.Waiting.{Heard};

use framing::{Cutter, Framing, LONGEST_PIECE};
use kit_bytes::{Cut, Span};
use std::alloc::{AllocError, Global};
use std::marker::Model;

/// A message that has come in.
#[derive(Clone, Copy, PartialEq, Eq)]
pub struct Found {
    /// Where it begins in the stream.
    pub place: u64,
    /// Where it stands among the bytes that were given.
    pub span: Span,
}

/// What comes next in the stream.
#[derive(Clone, Copy, PartialEq, Eq)]
pub(crate) enum Next {
    Message(Found),
    /// Bytes that begin no message, from this place on.
    Bad { place: u64 },
    NeedMore,
}

/// The stream that comes in: its messages with their places.
#[derive(Drop)]
pub struct Incoming<F: Framing> {
    cutter: Cutter<F>,
    place: u64,
}

impl<F: Framing> Model for Incoming<F> {
    ghost use Rattle.std.specs.Prelude.{◌≡◌};
    ghost use Rattle.framing.specs.Reading.{Reading};

    ghost Value = { Reading };

    ghost view = { λ i. i.cutter };

    ghost invariant = { λ i. i.place ≡ i.cutter.place };
}

impl<F: Framing> Incoming<F> {
    ghost use Rattle.link_session.specs.Hearing.{FindsNext, IsGiven, IsReady, Stands, found_in};

    /// The start of a stream.
    pub fn open(alloc: Global) -> Result<Self, AllocError>
        ensures { IfOk result (λ incoming. incoming ≡ record { place = 0; handed = []; rest = [] }) }
    {
        Ok(Incoming {
            cutter: Cutter::open(alloc)?,
            place: 0,
        })
    }

    /// Adds the next piece.
    pub(crate) fn push(&mut self, piece: &[u8])
        requires partial { IsPartial F.size self.old.rest }
        requires short { length piece.now ≤ LONGEST_PIECE }
        ensures pushed { self.new ≡ record { place = self.old.place; handed = []; rest = self.old.rest ++ piece.now } }
        ensures stands { (heard : Heard) → Stands F.size self.old heard
            → Stands F.size self.new (record { taken = heard.taken ++ piece.now; left = piece_marks F.size heard.taken piece.now }) }
    {
        self.cutter.push(piece);
    }

    /// Finds what comes next.
    pub(crate) fn next(&mut self) -> Next
        ensures next { (heard : Heard) → Stands F.size self.old heard → FindsNext F.size heard result self.new }
        ensures ready { IsReady F.size F.LONGEST result self.new }
        ensures same { result ≡ Next.NeedMore → self.new ≡ self.old }
    {
        match self.cutter.next() {
            Cut::Whole(span) => {
                let place = self.place;
                let count = span.end - span.start;
                self.place = place.saturating_add(count as u64);
                Next::Message(Found { place, span })
            }
            Cut::Bad(place) => Next::Bad { place },
            Cut::NeedMore => Next::NeedMore,
        }
    }

    /// The bytes of a message that was found since the last push.
    pub fn bytes(&self, found: Found) -> &[u8]
        requires { IsGiven F.size self.now found }
        ensures { result.now ≡ found_in self.now found }
    {
        self.cutter.bytes(found.span)
    }
}
