ghost use Rattle.std.specs.Prelude.{◌≡◌, ◌≤◌, ℕ, List, [], Err, IfOk};
ghost use Rattle.kit_io.specs.Causes.{Rose};
ghost use Rattle.framing.specs.Framing.{IsMessage};
ghost use Rattle.link_session.specs.Marks.{Placed};
ghost use Rattle.link_session.specs.Waiting.{Heard, Judge, patience_of, waiting};
ghost use Rattle.link_session.specs.Hearing.{Hears, IsGiven, Stands, WaitsFor};

use crate::fault::SessionFault;
use crate::incoming::{Found, Incoming};
use crate::mark::{Mark, next_mark};
use framing::Framing;
use link_io::Link;

/// So many messages that don't complete the answer are too many.
const MOST_MESSAGES: u32 = 65_536;

/// What a message is to the one who waits for an answer.
#[derive(Clone, Copy, PartialEq, Eq)]
pub enum Meaning {
    /// It isn't the answer, or not the last message of it.
    NoAnswer,
    /// It is the answer, or the last message of it.
    Answer,
    /// It can't be what it should be. What is broken begins at this place in the stream.
    Broken { place: u64 },
}

/// Who waits for an answer.
pub trait Awaits<F: Framing> {
    /// The number of the request.
    ghost number: { Self → ℕ };

    /// What a message is to it, behind the messages that came before since the request.
    ghost judge: { Self → Judge };

    /// It has heard these messages since the request.
    ghost has_heard: { Self → List Placed → Type 0 };

    /// It has what this message completes, behind those before it.
    ghost has_answer: { Self → List Placed → Placed → Type 0 };

    /// Hears the next message, which begins at this place in the stream.
    fn hear(&mut self, place: u64, message: &[u8]) -> Meaning
        requires { IsMessage F.size message.now }
        ensures hears { (before : List Placed) → has_heard self.old before
            → Hears (judge self.old) (has_heard self.new) (has_answer self.new) before (record { place = place; bytes = message.now }) result }
        ensures judge { judge self.new ≡ judge self.old }
        ensures number { number self.new ≡ number self.old };
}

/// How many quiet takes are let pass by who waits for so many seconds. Each is of 100 ms.
fn patience_of(seconds: u16) -> u32
    ensures { result ≡ patience_of seconds }
{
    (u32::from(seconds) * 10).saturating_sub(1)
}

/// Waits for an answer, for so many seconds without a byte.
pub fn wait_for<L: Link, F: Framing, A: Awaits<F>>(
    link: &mut L,
    incoming: &mut Incoming<F>,
    awaiting: &mut A,
    timeout: u16,
) -> Result<Found, SessionFault>
    requires { A.has_heard awaiting.old [] }
    ensures waits { (heard : Heard) → Stands F.size incoming.old heard
        → WaitsFor F.size (waiting (A.judge awaiting.old) timeout) (A.has_answer awaiting.new) heard result incoming.new (L.calls link.old) (L.calls link.new) }
    ensures given { IfOk result (IsGiven F.size incoming.new) }
    ensures number { A.number awaiting.new ≡ A.number awaiting.old }
    ensures link_fault { result ≡ Err SessionFault.LinkFault → Rose (L.faults link.old) (L.faults link.new) }
    ensures later { L.faults link.old ≤ L.faults link.new }
    ensures later_open { L.open_faults link.old ≤ L.open_faults link.new }
{
    let patience = patience_of(timeout);
    let mut quiets = 0;
    let mut messages = 0;
    loop {
        match next_mark(link, incoming) {
            Mark::Message(found) => {
                match awaiting.hear(found.place, incoming.bytes(found)) {
                    Meaning::Answer => return Ok(found),
                    Meaning::Broken { place } => return Err(SessionFault::Broken { place }),
                    Meaning::NoAnswer => {}
                }
                messages += 1;
                if messages == MOST_MESSAGES {
                    return Err(SessionFault::Flooded);
                }
            }
            Mark::Quiet => {
                if quiets == patience {
                    return Err(SessionFault::TimedOut);
                }
                quiets += 1;
            }
            Mark::Bad { place } => return Err(SessionFault::Broken { place }),
            Mark::End => return Err(SessionFault::LinkEnd),
            Mark::Failed => return Err(SessionFault::LinkFault),
        }
    }
}
