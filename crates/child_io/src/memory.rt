ghost use Rattle.std.specs.Prelude.{◌≡◌, ◌≤◌, [], ◌∷◌, Some, map, reverse, string_bytes, IfOk};
ghost use Rattle.kit_io.specs.Growth.{Grows};
ghost use Rattle.child_io.specs.Made.{calls_of, words_notes};

use crate::Spawner;
use kit_io::{Failed, Faults, Log};
use std::alloc::{AllocError, Global};

/// What a spawner in memory answers to one call.
#[derive(Clone, Copy, PartialEq, Eq)]
pub enum SpawnerAnswer {
    /// The call does what it is to do; a child ended with status 0.
    Does,
    /// The call fails.
    Fails,
    /// A child ended with this status.
    EndsWith(i32),
}

/// A part of a call that was made on a spawner in memory. A start has a note as it begins, one for
/// each of its words, which are the bytes beside it, and one as it is answered. Every other call
/// has one note.
#[derive(Clone, Copy, Debug, PartialEq, Eq)]
pub enum Made {
    Starts,
    Word,
    Started { child: u32 },
    StartFailed,
    Ended { child: u32, status: i32 },
    EndFailed { child: u32 },
    Stopped { child: u32, ok: bool, after: u64 },
}

/// A spawner in memory. It answers by its script, and behind the script's end each call does what
/// it is to do. The children are named from 1 on, in the order of their starts.
#[derive(Drop)]
pub struct MemSpawner {
    // The answers still to come, the next one last.
    script: Vec<SpawnerAnswer>,
    log: Log<Made>,
    // The last child that was named, 0 where none was.
    last: u32,
    faults: Faults,
}

impl MemSpawner {
    /// A spawner that follows this script, with room to tell of so many parts of calls, and of so
    /// many bytes of theirs in all.
    pub fn new(
        alloc: Global,
        mut script: Vec<SpawnerAnswer>,
        room: usize,
        bytes_room: usize,
    ) -> Result<Self, AllocError>
        ensures recorded { IfOk result (λ spawner. spawner.log.recorded ≡ Some []) }
        ensures room { IfOk result (λ spawner. room ≤ spawner.log.room) }
        ensures bytes_room { IfOk result (λ spawner. bytes_room ≤ spawner.log.bytes_room) }
        ensures script { IfOk result (λ spawner. spawner.script.items ≡ reverse script.items) }
        ensures unnamed { IfOk result (λ spawner. spawner.last ≡ 0) }
        ensures faults { IfOk result (λ spawner. spawner.faults ≡ 0) }
    {
        script.reverse();
        Ok(MemSpawner {
            script,
            log: Log::new(alloc, room, bytes_room)?,
            last: 0,
            faults: Faults::none(),
        })
    }

    /// The parts of the calls so far.
    pub fn log(&self) -> &Log<Made>
        ensures { result.now ≡ self.now.log }
    {
        &self.log
    }
}

// Notes that a start begins, with these words.
#[tactic(auto, using(kit_io::proofs::Growth::growing))]
fn note_words(log: &mut Log<Made>, words: &[String])
    ensures { Grows log.old.recorded (words_notes (map string_bytes words.now)) log.new.recorded }
{
    log.note(Made::Starts, &[]);
    for word in words {
        log.note(Made::Word, word.as_bytes());
    }
}

impl Spawner for MemSpawner {
    ghost calls = { λ s. calls_of s.log.recorded };

    ghost faults = { λ s. s.faults };

    #[tactic(auto, using(crate::proofs::Notes::noting))]
    fn start(&mut self, words: &[String]) -> Result<u32, Failed> {
        note_words(&mut self.log, words);
        let fails = self.script.pop() == Some(SpawnerAnswer::Fails);
        let Some(child) = self.last.checked_add(1).filter(|_| !fails) else {
            self.log.note(Made::StartFailed, &[]);
            return Err(self.faults.fail());
        };
        self.last = child;
        self.log.note(Made::Started { child }, &[]);
        Ok(child)
    }

    #[tactic(auto, using(crate::proofs::Notes::noting))]
    fn ended(&mut self, child: u32) -> Result<i32, Failed> {
        let status = match self.script.pop() {
            Some(SpawnerAnswer::Fails) => {
                self.log.note(Made::EndFailed { child }, &[]);
                return Err(self.faults.fail());
            }
            Some(SpawnerAnswer::EndsWith(status)) => status,
            Some(SpawnerAnswer::Does) | None => 0,
        };
        self.log.note(Made::Ended { child, status }, &[]);
        Ok(status)
    }

    #[tactic(auto, using(crate::proofs::Notes::noting))]
    fn stop(&mut self, child: u32, after: u64) -> Result<(), Failed> {
        let ok = self.script.pop() != Some(SpawnerAnswer::Fails);
        self.log.note(Made::Stopped { child, ok, after }, &[]);
        if !ok {
            return Err(self.faults.fail());
        }
        Ok(())
    }
}
