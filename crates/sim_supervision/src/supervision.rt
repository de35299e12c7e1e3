ghost use Rattle.std.specs.Prelude.{◌≡◌, [], ◌∷◌, map, string_bytes};
ghost use Rattle.std.specs.Option.{option_copied};
ghost use Rattle.kit_io.specs.Causes.{Rose, HasCause};
ghost use Rattle.sim_supervision.specs.Supervision.{GrowsBySupervision, SupervisesOrLacksMemory};
ghost use Rattle.sim_supervision.specs.Once.{GrowsLike, IsEnd, IsRun};
ghost use Rattle.sim_supervision.specs.Words.{start_words};

use crate::words::start_words;
use child_io::{Kids, Spawner};
use kit_bytes::PathText;
use kit_io::Failed;
use sim_task::SimTask;
use std::alloc::{AllocError, Global};

/// How supervising a simulated modem ended.
#[derive(Clone, Copy, PartialEq, Eq)]
pub enum SupervisionEnd {
    /// It ended with this status: with 0, or so often that it isn't started anew.
    Ended(i32),
    /// It couldn't be started, or its end couldn't be waited for.
    StartFault,
    /// No memory was there to begin with.
    OutOfMemory,
}

/// Starts a simulated modem as a child, waits for its end, and starts it again while it ends with
/// another status than 0 and fewer than so many were started.
///
/// It goes by the rules of a file, if one is named.
pub fn supervise_simulator<P: Spawner>(
    alloc: Global,
    task: &SimTask,
    rules: Option<&PathText>,
    most: u8,
    spawner: &mut P,
) -> SupervisionEnd
    ensures keeps { SupervisesOrLacksMemory (start_words task.now.kind task.now.socket task.now.turns task.now.profile (option_copied rules.entry)) most (P.calls spawner.old) result (P.calls spawner.new) }
    // It doesn't give up by itself.
    ensures start_fault { result ≡ SupervisionEnd.StartFault → Rose (P.faults spawner.old) (P.faults spawner.new) }
{
    match start_words(alloc, task, rules) {
        Ok(words) => supervise(words.as_slice(), most, spawner),
        Err(AllocError) => SupervisionEnd::OutOfMemory,
    }
}

// Supervises what these words start running.
fn supervise<P: Spawner>(words: &[String], most: u8, spawner: &mut P) -> SupervisionEnd
    ensures keeps { GrowsBySupervision (map string_bytes words.now) most (P.calls spawner.old) result (P.calls spawner.new) }
    ensures start_fault { result ≡ SupervisionEnd.StartFault → Rose (P.faults spawner.old) (P.faults spawner.new) }
{
    for _ in 1..most {
        let status = match run_once(words, spawner) {
            Ok(status) => status,
            Err(Failed) => return SupervisionEnd::StartFault,
        };
        if status == 0 {
            return SupervisionEnd::Ended(status);
        }
    }
    match run_once(words, spawner) {
        Ok(status) => SupervisionEnd::Ended(status),
        Err(Failed) => SupervisionEnd::StartFault,
    }
}

// Starts a child, and waits for its end. One that can't be waited for is stopped.
fn run_once<P: Spawner>(words: &[String], spawner: &mut P) -> Result<i32, Failed>
    ensures run { GrowsLike (IsRun (map string_bytes words.now) result) (P.calls spawner.old) (P.calls spawner.new) }
    ensures cause { HasCause (P.faults spawner.old) (P.faults spawner.new) result }
{
    let mut kids = Kids::none();
    match kids.start(spawner, words) {
        Ok(child) => end_of(kids, child, spawner),
        Err(Failed) => {
            let _ = kids.stop_all(spawner, 0);
            Err(Failed)
        }
    }
}

// Waits for the end of the one child that is kept, or stops it. No call is made on what it serves.
fn end_of<P: Spawner>(kids: Kids, child: u32, spawner: &mut P) -> Result<i32, Failed>
    requires { kids ≡ child ∷ [] }
    ensures ended { GrowsLike (IsEnd child result) (P.calls spawner.old) (P.calls spawner.new) }
    ensures cause { HasCause (P.faults spawner.old) (P.faults spawner.new) result }
{
    let mut kids = kids;
    let ended = kids.ended(spawner, child);
    let _ = kids.stop_all(spawner, 0);
    ended
}
