//! Clients that send few bytes at a time, and are left alone for a while each time.
use arrayvec::ArrayVec;
use hub_io::PLACES;
use kit_bytes::ConnId;

/// Behind so many microseconds a client is read again, at the earliest.
const REST: u64 = 2_000;

/// And so many behind another one, so that what they all sent isn't read in one go.
const APART: u64 = 250;

/// A client that is read again at a time.
#[derive(Clone, Copy, Default)]
struct Rest {
    name: ConnId,
    due: u64,
}

/// Who is left alone, in the order of their times, which are in microseconds.
#[derive(Drop)]
pub(crate) struct Resting {
    rests: ArrayVec<Rest, PLACES>,
    /// When the next one may be read again.
    free: u64,
}

impl Resting {
    pub(crate) fn nobody() -> Self {
        Resting {
            rests: ArrayVec::new(),
            free: 0,
        }
    }

    pub(crate) fn is_empty(&self) -> bool {
        self.rests.is_empty()
    }

    /// Adds a client, where there is room. It tells whether there was.
    pub(crate) fn add(&mut self, name: ConnId, now: u64) -> bool {
        let due = now.saturating_add(REST);
        self.rests.try_push(Rest { name, due }).is_ok()
    }

    /// Takes out the first client, once it is to be read again.
    pub(crate) fn next(&mut self, now: u64) -> Option<u64> {
        let due = self.rests.first()?.due;
        if now < due || now < self.free {
            return None;
        }
        self.free = now.saturating_add(APART);
        Some(self.rests.remove(0).name)
    }
}
