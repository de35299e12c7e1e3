ghost use Rattle.std.specs.Prelude.{◌≡◌};
ghost use Rattle.stream_lines.specs.Capture.{end_by};

/// How the showing of a captured stream ends.
#[derive(Clone, Copy, PartialEq, Eq)]
pub enum DissectEnd {
    /// The file has ended behind a whole message.
    Done,
    /// At this place no message begins, or one that isn't whole.
    Broken { place: u64 },
    /// The file couldn't be opened or read.
    ReadFault,
    /// The lines couldn't be written.
    WriteFault,
    /// It has read as often as it may.
    TurnsSpent,
    OutOfMemory,
}

/// How it ends where nothing more comes: so many bytes have come, and this is where the next message
/// begins.
pub(crate) fn end_of_stream(came: u64, place: u64) -> DissectEnd
    ensures { result ≡ end_by came place }
{
    if came == place {
        DissectEnd::Done
    } else {
        DissectEnd::Broken { place }
    }
}
