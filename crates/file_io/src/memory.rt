ghost use Rattle.std.specs.Prelude.{◌≡◌, ◌≤◌, [], Some, IfOk, codes};
ghost use Rattle.file_io.specs.Made.{calls_of};

use crate::{Complain, Files, Side};
use kit_io::{Failed, Faults, Log};
use std::alloc::{AllocError, Global};

/// What files in memory answer to one call.
#[derive(Drop)]
pub enum FileAnswer {
    /// The call does what it is to do: a read finds the end, and a write takes all.
    Does,
    /// The call fails.
    Fails,
    /// A read gives these bytes, as many as fit.
    Gives(Vec<u8>),
    /// A write takes at most so many bytes, but at least one.
    Takes(usize),
}

/// A call that was made on files in memory. Its bytes stand beside it: the path, or what was given
/// or taken.
#[derive(Clone, Copy, Debug, PartialEq, Eq)]
pub enum Made {
    Opened { side: Side, ok: bool },
    Gave,
    ReadFailed,
    Took,
    WriteFailed,
    Closed,
}

/// Files in memory. They answer by their script, and behind the script's end each call does what it
/// is to do.
#[derive(Drop)]
pub struct MemFiles {
    // The answers still to come, the next one last.
    script: Vec<FileAnswer>,
    log: Log<Made>,
    read_faults: Faults,
    write_faults: Faults,
}

impl MemFiles {
    /// Files that follow this script, with room to tell of so many calls, and of so many bytes of
    /// theirs in all.
    pub fn new(
        alloc: Global,
        mut script: Vec<FileAnswer>,
        room: usize,
        bytes_room: usize,
    ) -> Result<Self, AllocError>
        ensures recorded { IfOk result (λ files. files.log.recorded ≡ Some []) }
        ensures room { IfOk result (λ files. room ≤ files.log.room) }
        ensures bytes_room { IfOk result (λ files. bytes_room ≤ files.log.bytes_room) }
    {
        script.reverse();
        Ok(MemFiles {
            script,
            log: Log::new(alloc, room, bytes_room)?,
            read_faults: Faults::none(),
            write_faults: Faults::none(),
        })
    }

    /// The calls so far.
    pub fn log(&self) -> &Log<Made>
        ensures { result.now ≡ self.now.log }
    {
        &self.log
    }
}

impl Files for MemFiles {
    ghost calls = { λ s. calls_of s.log.recorded };

    ghost read_faults = { λ s. s.read_faults };

    ghost write_faults = { λ s. s.write_faults };

    #[tactic(auto, using(kit_io::proofs::Growth::growing))]
    fn open(&mut self, path: &str, side: Side) -> Result<(), Failed> {
        if let Some(FileAnswer::Fails) = self.script.pop() {
            self.log
                .note(Made::Opened { side, ok: false }, path.as_bytes());
            return Err(self.read_faults.fail());
        }
        self.log
            .note(Made::Opened { side, ok: true }, path.as_bytes());
        Ok(())
    }

    #[tactic(auto, using(kit_io::proofs::Growth::growing))]
    fn read(&mut self, buffer: &mut [u8]) -> Result<usize, Failed> {
        match self.script.pop() {
            Some(FileAnswer::Gives(bytes)) => {
                let count = bytes.len().min(buffer.len());
                buffer[..count].copy_from_slice(&bytes[..count]);
                self.log.note(Made::Gave, &buffer[..count]);
                Ok(count)
            }
            Some(FileAnswer::Fails) => {
                self.log.note(Made::ReadFailed, &[]);
                Err(self.read_faults.fail())
            }
            Some(FileAnswer::Does | FileAnswer::Takes(_)) | None => {
                self.log.note(Made::Gave, &[]);
                Ok(0)
            }
        }
    }

    #[tactic(auto, using(kit_io::proofs::Growth::growing))]
    fn write(&mut self, bytes: &[u8]) -> Result<usize, Failed> {
        let most = match self.script.pop() {
            Some(FileAnswer::Fails) => {
                self.log.note(Made::WriteFailed, &[]);
                return Err(self.write_faults.fail());
            }
            Some(FileAnswer::Takes(most)) => most.max(1),
            Some(FileAnswer::Does | FileAnswer::Gives(_)) | None => usize::MAX,
        };
        let count = bytes.len().min(most);
        self.log.note(Made::Took, &bytes[..count]);
        Ok(count)
    }

    #[tactic(auto, using(kit_io::proofs::Growth::growing))]
    fn close(&mut self) {
        self.log.note(Made::Closed, &[]);
    }
}

impl Complain for MemFiles {
    ghost words = { λ _. codes "as its script says" };

    fn words(&self) -> &str {
        "as its script says"
    }
}
