//! How much of a client is read at once, and when it is left alone for a while.
ghost use Rattle.std.specs.Prelude.{◌<◌, ◌≤◌};

use std::rt::Clock;
use std::time::Instant;

/// A piece of fewer bytes is no message and no head of one: a head has 6 at least, that of QMUX.
const FEW: usize = 6;

/// The bytes of a small slice. The system takes up to a microsecond for each byte that was sent by
/// itself, so that a longer reading keeps the others waiting.
const SMALL: usize = 16;

/// The bytes of a large slice. They aren't more, since some that were sent by themselves may stand
/// behind many that were sent at once.
const LARGE: usize = 64;

/// A slice is dear whose reading takes more than so many times as long as asking for the next. It
/// takes 2 to 15 times as long where its bytes were sent at once, and 25 to 60 times where each was
/// sent by itself.
const DEAR: u32 = 20;

/// How much is read at once.
#[derive(Clone, Copy)]
enum Size {
    /// All that there is room for.
    Free,
    /// A slice behind few bytes, or behind a dear slice.
    Small,
    /// A slice behind one that wasn't dear.
    Large,
}

/// How a client is read: in slices from the second piece in turn of few bytes on, until a reading
/// finds all that there is.
#[derive(Clone, Copy)]
pub(crate) struct Pace {
    size: Size,
    /// The last piece had few bytes.
    had_few: bool,
}

impl Pace {
    pub(crate) fn free() -> Self {
        Pace {
            size: Size::Free,
            had_few: false,
        }
    }

    pub(crate) fn is_sliced(&self) -> bool {
        !matches!(self.size, Size::Free)
    }

    /// How much is read at once of a buffer of this length.
    pub(crate) fn room(&self, len: usize) -> usize
        requires { 0 < len }
        ensures some { 0 < result }
        ensures fits { result ≤ len }
    {
        match self.size {
            Size::Free => len,
            Size::Small => len.min(SMALL),
            Size::Large => len.min(LARGE),
        }
    }

    /// A reading found all that there was.
    pub(crate) fn found_all(&mut self) {
        self.size = Size::Free;
    }

    /// The time at which a reading begins whose cost matters.
    pub(crate) fn begin<R: Clock>(&self, rt: &R) -> Option<Instant> {
        if self.is_sliced() {
            Instant::now(rt).ok()
        } else {
            None
        }
    }

    /// Takes a piece of so many bytes that was no slice, and tells whether the client is to rest.
    pub(crate) fn take(&mut self, count: usize) -> bool {
        let had_few = self.had_few;
        self.had_few = count < FEW;
        let rests = had_few && self.had_few;
        if rests {
            self.size = Size::Small;
        }
        rests
    }

    /// Takes a slice, and tells whether the client is to rest.
    pub(crate) fn take_slice(&mut self, is_dear: bool) -> bool {
        self.size = if is_dear { Size::Small } else { Size::Large };
        is_dear
    }
}

/// Whether a slice was dear that was begun, and was read, and behind which the next was asked for, at
/// these times. One of which the clock doesn't tell all three is.
pub(crate) fn is_dear(
    began: Option<Instant>,
    read: Option<Instant>,
    asked: Option<Instant>,
) -> bool {
    let (Some(began), Some(read), Some(asked)) = (began, read, asked) else {
        return true;
    };
    let asking = asked.duration_since(read);
    read.duration_since(began) > asking.saturating_mul(DEAR)
}
