ghost use Rattle.std.specs.Prelude.{◌≡◌, ◌≤◌, [], Some, IfOk};
ghost use Rattle.std.specs.Option.{option_copied};

use crate::{CallCount, Failed, Faults, Record, Sink};
use std::alloc::{AllocError, Global};

/// What a sink in memory answers to one call.
#[derive(Clone, Copy, PartialEq, Eq)]
pub enum SinkAnswer {
    /// It takes at most so many bytes, but at least one.
    Takes(usize),
    /// The call fails.
    Fails,
}

/// A sink in memory. It answers by its script, and behind the script's end it takes all.
#[derive(Drop)]
pub struct MemSink {
    // The answers still to come, the next one last.
    script: Vec<SinkAnswer>,
    taken: Record<u8>,
    faults: Faults,
    made: CallCount,
}

impl MemSink {
    /// A sink that follows this script, with room to tell of so many bytes.
    pub fn new(alloc: Global, mut script: Vec<SinkAnswer>, room: usize) -> Result<Self, AllocError>
        ensures recorded { IfOk result (λ sink. sink.taken.recorded ≡ Some []) }
        ensures room { IfOk result (λ sink. room ≤ sink.taken.room) }
    {
        script.reverse();
        Ok(MemSink {
            script,
            taken: Record::new(alloc, room)?,
            faults: Faults::none(),
            made: CallCount::none(),
        })
    }

    /// The bytes taken so far, where recorded.
    pub fn taken(&self) -> Option<&[u8]>
        ensures { self.now.taken.recorded ≡ option_copied result }
    {
        self.taken.recorded()
    }
}

impl Sink for MemSink {
    ghost taken = { λ s. s.taken.recorded };

    ghost faults = { λ s. s.faults };

    ghost made = { λ s. s.made };

    fn made(&self) -> u64 {
        self.made.value()
    }

    fn write(&mut self, bytes: &[u8]) -> Result<usize, Failed> {
        self.made.add();
        match self.script.pop().unwrap_or(SinkAnswer::Takes(usize::MAX)) {
            SinkAnswer::Takes(most) => {
                let count = bytes.len().min(most.max(1));
                self.taken.extend(&bytes[..count]);
                Ok(count)
            }
            SinkAnswer::Fails => Err(self.faults.fail()),
        }
    }
}
