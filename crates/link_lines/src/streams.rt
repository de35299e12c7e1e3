ghost use Rattle.std.specs.Prelude.{◌≡◌, ◌+◌, ◌^◌, ◌<◌, ◌∷◌, ◌++◌, [], ℕ, List, length, OnOk, IfOk};
ghost use Rattle.stream_lines.specs.Lines.{Showing};
ghost use Rattle.link_io.specs.Made.{call_as};
ghost use Rattle.watched_link.specs.Notes.{Called, Event, event_as};
ghost use Rattle.link_lines.specs.Directions.{IsReady, StandsFor, Telling};
ghost use Rattle.link_lines.specs.Lines.{added, marked};

use crate::direction::Direction;
use crate::marks::{push_fault, push_marked};
use crate::shower::Shower;
use kit_bytes::Octets;
use link_io::Made;
use std::alloc::{AllocError, Global};
use std::mem::replace;
use stream_lines::Shows;
use watched_link::LinkNote;

/// Both directions of a link since it was opened to a path.
#[derive(Drop)]
pub(crate) struct Streams<S: Shows> {
    path: Octets,
    sent: Direction<S>,
    taken: Direction<S>,
}

/// Nothing went over it yet.
pub(crate) fn begin<S: Shower>(
    alloc: Global,
    shower: &S,
    path: &[u8],
) -> Result<Streams<S::Lines>, AllocError>
    requires { S.serves shower.now }
    ensures path { IfOk result (λ streams. streams.path ≡ path.now) }
    ensures sent { IfOk result (λ streams. StandsFor S.Lines.Frames.size S.Lines.shows (S.shown shower.now) [] streams.sent.good streams.sent.stream.cutter streams.sent.stream.state streams.sent.stream.place) }
    ensures taken { IfOk result (λ streams. StandsFor S.Lines.Frames.size S.Lines.shows (S.shown shower.now) [] streams.taken.good streams.taken.stream.cutter streams.taken.stream.state streams.taken.stream.place) }
    ensures sent_ready { IfOk result (λ streams. IsReady S.Lines.Frames.size streams.sent.good streams.sent.stream.cutter) }
    ensures taken_ready { IfOk result (λ streams. IsReady S.Lines.Frames.size streams.taken.good streams.taken.stream.cutter) }
{
    Ok(Streams {
        path: Octets::from_slice(alloc, path)?,
        sent: direction(alloc, shower)?,
        taken: direction(alloc, shower)?,
    })
}

// One of its directions.
fn direction<S: Shower>(alloc: Global, shower: &S) -> Result<Direction<S::Lines>, AllocError>
    requires { S.serves shower.now }
    ensures stands { IfOk result (λ direction. StandsFor S.Lines.Frames.size S.Lines.shows (S.shown shower.now) [] direction.good direction.stream.cutter direction.stream.state direction.stream.place) }
    ensures ready { IfOk result (λ direction. IsReady S.Lines.Frames.size direction.good direction.stream.cutter) }
{
    let lines = shower.begin(alloc)?;
    Direction::open(alloc, lines)
}

// The same, in place of what went over it before.
fn begin_again<S: Shower>(
    alloc: Global,
    shower: &S,
    streams: &mut Streams<S::Lines>,
    path: &[u8],
) -> Result<(), AllocError>
    requires { S.serves shower.now }
    ensures path { OnOk result (streams.new.path ≡ path.now) }
    ensures sent { OnOk result (StandsFor S.Lines.Frames.size S.Lines.shows (S.shown shower.now) [] streams.new.sent.good streams.new.sent.stream.cutter streams.new.sent.stream.state streams.new.sent.stream.place) }
    ensures taken { OnOk result (StandsFor S.Lines.Frames.size S.Lines.shows (S.shown shower.now) [] streams.new.taken.good streams.new.taken.stream.cutter streams.new.taken.stream.state streams.new.taken.stream.place) }
    ensures sent_ready { OnOk result (IsReady S.Lines.Frames.size streams.new.sent.good streams.new.sent.stream.cutter) }
    ensures taken_ready { OnOk result (IsReady S.Lines.Frames.size streams.new.taken.good streams.new.taken.stream.cutter) }
{
    let begun = begin(alloc, shower, path)?;
    drop(replace(streams, begun));
    Ok(())
}

/// Adds the lines that tell what was noted.
pub(crate) fn tell<S: Shower>(
    alloc: Global,
    shower: &S,
    streams: &mut Streams<S::Lines>,
    note: LinkNote,
    bytes: &[u8],
    text: &mut Octets,
) -> Result<(), AllocError>
    requires serves { S.serves shower.now }
    requires sent_ready { IsReady S.Lines.Frames.size streams.old.sent.good streams.old.sent.stream.cutter }
    requires taken_ready { IsReady S.Lines.Frames.size streams.old.taken.good streams.old.taken.stream.cutter }
    ensures sent_ready { OnOk result (IsReady S.Lines.Frames.size streams.new.sent.good streams.new.sent.stream.cutter) }
    ensures taken_ready { OnOk result (IsReady S.Lines.Frames.size streams.new.taken.good streams.new.taken.stream.cutter) }
    ensures tells { OnOk result ((whole : List ℕ) (events : List Event) → Telling S.Lines.Frames.size S.Lines.shows (S.shown shower.now) whole (event_as note bytes.now ∷ events) text.old streams.old.path streams.old.sent.good streams.old.sent.stream.cutter streams.old.sent.stream.state streams.old.sent.stream.place streams.old.taken.good streams.old.taken.stream.cutter streams.old.taken.stream.state streams.old.taken.stream.place
        → Telling S.Lines.Frames.size S.Lines.shows (S.shown shower.now) whole events text.new streams.new.path streams.new.sent.good streams.new.sent.stream.cutter streams.new.sent.stream.state streams.new.sent.stream.place streams.new.taken.good streams.new.taken.stream.cutter streams.new.taken.stream.state streams.new.taken.stream.place) }
{
    match note {
        LinkNote::Called(made) => tell_call(alloc, shower, streams, made, bytes, text),
        LinkNote::Said => push_fault(text, streams.path.as_slice(), bytes),
    }
}

// Adds the lines that tell a call.
fn tell_call<S: Shower>(
    alloc: Global,
    shower: &S,
    streams: &mut Streams<S::Lines>,
    made: Made,
    bytes: &[u8],
    text: &mut Octets,
) -> Result<(), AllocError>
    requires serves { S.serves shower.now }
    requires sent_ready { IsReady S.Lines.Frames.size streams.old.sent.good streams.old.sent.stream.cutter }
    requires taken_ready { IsReady S.Lines.Frames.size streams.old.taken.good streams.old.taken.stream.cutter }
    ensures sent_ready { OnOk result (IsReady S.Lines.Frames.size streams.new.sent.good streams.new.sent.stream.cutter) }
    ensures taken_ready { OnOk result (IsReady S.Lines.Frames.size streams.new.taken.good streams.new.taken.stream.cutter) }
    ensures tells { OnOk result ((whole : List ℕ) (events : List Event) → Telling S.Lines.Frames.size S.Lines.shows (S.shown shower.now) whole (Called (call_as made bytes.now) ∷ events) text.old streams.old.path streams.old.sent.good streams.old.sent.stream.cutter streams.old.sent.stream.state streams.old.sent.stream.place streams.old.taken.good streams.old.taken.stream.cutter streams.old.taken.stream.state streams.old.taken.stream.place
        → Telling S.Lines.Frames.size S.Lines.shows (S.shown shower.now) whole events text.new streams.new.path streams.new.sent.good streams.new.sent.stream.cutter streams.new.sent.stream.state streams.new.sent.stream.place streams.new.taken.good streams.new.taken.stream.cutter streams.new.taken.stream.state streams.new.taken.stream.place) }
{
    match made {
        Made::Opened { .. } | Made::OpenedBridge { .. } => {
            begin_again(alloc, shower, streams, bytes)
        }
        Made::Sent { ok: true } => push_shown(alloc, &mut streams.sent, b"> ", bytes, text),
        Made::Took => push_shown(alloc, &mut streams.taken, b"< ", bytes, text),
        Made::Paired { .. }
        | Made::Sent { ok: false }
        | Made::WasQuiet
        | Made::WasEnd
        | Made::TakeFailed
        | Made::Closed => Ok(()),
    }
}

// Adds the lines that a direction has more with these bytes, behind a mark each.
fn push_shown<S: Shows>(
    alloc: Global,
    direction: &mut Direction<S>,
    mark: &[u8],
    bytes: &[u8],
    text: &mut Octets,
) -> Result<(), AllocError>
    requires ready { IsReady S.Frames.size direction.old.good direction.old.stream.cutter }
    ensures ready { OnOk result (IsReady S.Frames.size direction.new.good direction.new.stream.cutter) }
    ensures shows { OnOk result ((shown : Showing) (before : List ℕ) → StandsFor S.Frames.size S.shows shown before direction.old.good direction.old.stream.cutter direction.old.stream.state direction.old.stream.place → length before + length bytes.now < 2 ^ 64
        → (text.new ≡ text.old ++ marked mark.now (added S.Frames.size shown before bytes.now)) × StandsFor S.Frames.size S.shows shown (before ++ bytes.now) direction.new.good direction.new.stream.cutter direction.new.stream.state direction.new.stream.place) }
{
    let mut lines = Octets::new(alloc);
    direction.show(alloc, &mut lines, bytes)?;
    push_marked(text, mark, lines.as_slice())?;
    Ok(())
}
