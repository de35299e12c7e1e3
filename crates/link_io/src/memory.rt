ghost use Rattle.std.specs.Prelude.{◌≡◌, ◌≤◌, false, [], ◌∷◌, Some, reverse, IfOk};
ghost use Rattle.kit_io.specs.Growth.{Grows};
ghost use Rattle.link_io.specs.Calls.{Opened};
ghost use Rattle.link_io.specs.Target.{address_of};
ghost use Rattle.link_io.specs.Made.{calls_of};

use crate::{Link, Taken, Target};
use kit_io::{CallCount, Failed, Faults, Log};
use std::alloc::{AllocError, Global};

/// What a link in memory answers to one call.
#[derive(Drop)]
pub enum LinkAnswer {
    /// The call does what it is to do; a take gives nothing.
    Does,
    /// The call fails; a send sends the first half of its bytes.
    Fails,
    /// A take gives these bytes, as many as fit.
    Gives(Vec<u8>),
    /// A take finds the end.
    Ends,
}

/// A call that was made on a link in memory. Its bytes stand beside it: the path, or what was sent
/// or given.
#[derive(Clone, Copy, Debug, PartialEq, Eq)]
pub enum Made {
    /// A socket was opened.
    Opened { ok: bool },
    OpenedBridge { ok: bool },
    Paired { ok: bool },
    Sent { ok: bool },
    Took,
    WasQuiet,
    WasEnd,
    TakeFailed,
    Closed,
}

/// A link in memory. It answers by its script, and behind the script's end a take finds the end.
#[derive(Drop)]
pub struct MemLink {
    // The answers still to come, the next one last.
    script: Vec<LinkAnswer>,
    log: Log<Made>,
    ended: bool,
    open_faults: Faults,
    faults: Faults,
    made: CallCount,
}

impl MemLink {
    /// A link that follows this script, with room to tell of so many calls, and of so many bytes of
    /// theirs in all.
    pub fn new(
        alloc: Global,
        mut script: Vec<LinkAnswer>,
        room: usize,
        bytes_room: usize,
    ) -> Result<Self, AllocError>
        ensures recorded { IfOk result (λ link. link.log.recorded ≡ Some []) }
        ensures room { IfOk result (λ link. room ≤ link.log.room) }
        ensures bytes_room { IfOk result (λ link. bytes_room ≤ link.log.bytes_room) }
        ensures script { IfOk result (λ link. link.script.items ≡ reverse script.items) }
        ensures not_ended { IfOk result (λ link. link.ended ≡ false) }
        ensures open_faults { IfOk result (λ link. link.open_faults ≡ 0) }
        ensures faults { IfOk result (λ link. link.faults ≡ 0) }
        ensures made { IfOk result (λ link. link.made ≡ 0) }
    {
        script.reverse();
        Ok(MemLink {
            script,
            log: Log::new(alloc, room, bytes_room)?,
            ended: false,
            open_faults: Faults::none(),
            faults: Faults::none(),
            made: CallCount::none(),
        })
    }

    /// The calls so far.
    pub fn log(&self) -> &Log<Made>
        ensures { result.now ≡ self.now.log }
    {
        &self.log
    }
}

// Notes an opening of this target.
#[tactic(auto, using(kit_io::proofs::Growth::growing))]
fn note_opening(log: &mut Log<Made>, target: &Target, ok: bool)
    ensures { Grows (calls_of log.old.recorded) (Opened (address_of target.now) ok ∷ []) (calls_of log.new.recorded) }
{
    match target {
        Target::Socket(path) => log.note(Made::Opened { ok }, path.as_str().as_bytes()),
        Target::Bridge(path) => log.note(Made::OpenedBridge { ok }, path.as_str().as_bytes()),
    }
}

impl Link for MemLink {
    ghost calls = { λ s. calls_of s.log.recorded };

    ghost ended = { λ s. s.ended };

    ghost open_faults = { λ s. s.open_faults };

    ghost faults = { λ s. s.faults };

    ghost made = { λ s. s.made };

    fn made(&self) -> u64 {
        self.made.value()
    }

    #[tactic(auto, using(kit_io::proofs::Growth::growing))]
    fn open(&mut self, target: &Target) -> Result<(), Failed> {
        self.made.add();
        if let Some(LinkAnswer::Fails) = self.script.pop() {
            note_opening(&mut self.log, target, false);
            return Err(self.open_faults.fail());
        }
        note_opening(&mut self.log, target, true);
        Ok(())
    }

    #[tactic(auto, using(kit_io::proofs::Growth::growing))]
    fn pair(&mut self) -> Result<(), Failed> {
        self.made.add();
        if let Some(LinkAnswer::Fails) = self.script.pop() {
            self.log.note(Made::Paired { ok: false }, &[]);
            return Err(self.faults.fail());
        }
        self.log.note(Made::Paired { ok: true }, &[]);
        Ok(())
    }

    #[tactic(auto, using(kit_io::proofs::Growth::growing))]
    fn send(&mut self, bytes: &[u8]) -> Result<(), Failed> {
        self.made.add();
        if let Some(LinkAnswer::Fails) = self.script.pop() {
            let half = &bytes[..bytes.len() / 2];
            self.log.note(Made::Sent { ok: false }, half);
            return Err(self.faults.fail());
        }
        self.log.note(Made::Sent { ok: true }, bytes);
        Ok(())
    }

    #[tactic(auto, using(kit_io::proofs::Growth::growing))]
    fn take(&mut self, buffer: &mut [u8]) -> Result<Taken, Failed> {
        self.made.add();
        if self.ended {
            self.log.note(Made::WasEnd, &[]);
            return Ok(Taken::End);
        }
        match self.script.pop() {
            Some(LinkAnswer::Gives(bytes)) if !bytes.is_empty() => {
                let count = bytes.len().min(buffer.len());
                buffer[..count].copy_from_slice(&bytes[..count]);
                self.log.note(Made::Took, &buffer[..count]);
                Ok(Taken::Bytes(count))
            }
            Some(LinkAnswer::Ends) | None => {
                self.ended = true;
                self.log.note(Made::WasEnd, &[]);
                Ok(Taken::End)
            }
            Some(LinkAnswer::Fails) => {
                self.log.note(Made::TakeFailed, &[]);
                Err(self.faults.fail())
            }
            Some(LinkAnswer::Gives(_) | LinkAnswer::Does) => {
                self.log.note(Made::WasQuiet, &[]);
                Ok(Taken::Quiet)
            }
        }
    }

    #[tactic(auto, using(kit_io::proofs::Growth::growing))]
    fn close(&mut self) {
        self.made.add();
        self.log.note(Made::Closed, &[]);
    }
}
