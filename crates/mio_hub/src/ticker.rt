//! The time since a hub's opening, and when it is told.
use std::io;
use std::rt::Clock;
use std::time::{Duration, Instant};

/// How many milliseconds may pass before the time is told.
const TICK: u64 = 100;

/// A clock that is read when its hub has waited. Times are in milliseconds since the start.
#[derive(Drop)]
pub(crate) struct Ticker {
    start: Instant,
    now: u64,
    /// The same time in microseconds.
    micros: u64,
    /// When the time is to be told, in milliseconds.
    due: u64,
}

fn millis(time: Duration) -> u64 {
    time.as_secs()
        .saturating_mul(1000)
        .saturating_add(u64::from(time.subsec_millis()))
}

fn micros(time: Duration) -> u64 {
    time.as_secs()
        .saturating_mul(1_000_000)
        .saturating_add(u64::from(time.subsec_micros()))
}

impl Ticker {
    /// A clock that starts now.
    pub(crate) fn start<R: Clock>(rt: &R) -> io::Result<Self> {
        Ok(Ticker {
            start: Instant::now(rt)?,
            now: 0,
            micros: 0,
            due: TICK,
        })
    }

    /// Reads the time.
    pub(crate) fn read<R: Clock>(&mut self, rt: &R) -> io::Result<()> {
        let time = Instant::now(rt)?.duration_since(self.start);
        self.now = millis(time);
        self.micros = micros(time);
        Ok(())
    }

    /// The time that was read, once it is to be told.
    pub(crate) fn tell(&mut self) -> Option<u64> {
        if self.now < self.due {
            return None;
        }
        self.due = self.now.saturating_add(TICK);
        Some(self.now)
    }

    /// The time that was read, in microseconds.
    pub(crate) fn micros(&self) -> u64 {
        self.micros
    }

    /// How long it is until the time is to be told, or a millisecond where that isn't all that is waited for.
    pub(crate) fn left(&self, is_all: bool) -> Duration {
        let left = self.due.saturating_sub(self.now);
        Duration::from_millis(if is_all { left } else { left.min(1) })
    }
}
