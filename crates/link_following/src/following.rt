ghost use Rattle.std.specs.Prelude.{◌≡◌, ◌≤◌, Some, Ok, Err};
ghost use Rattle.framing.specs.Framing.{IsMessage};
ghost use Rattle.kit_io.specs.Causes.{Rose};
ghost use Rattle.link_session.specs.Waiting.{Heard};
ghost use Rattle.link_session.specs.Hearing.{Stands};
ghost use Rattle.link_following.specs.Hearing.{FollowsTo, Turns, Writes};

use crate::end::FollowEnd;
use crate::shows::Shows;
use framing::Framing;
use kit_bytes::Octets;
use kit_io::{Sink, WriteFault, write_all_to};
use link_io::Link;
use link_session::{Incoming, Mark, SessionFault, next_mark};
use std::alloc::Global;

/// Shows the messages that come, each before the next one is looked for, for so many turns at most. A
/// turn is a message, or a tick in which nothing came.
pub fn follow<L: Link, F: Framing, S: Shows<F>, O: Sink>(
    alloc: Global,
    link: &mut L,
    incoming: &mut Incoming<F>,
    shows: &S,
    out: &mut O,
    turns: u64,
) -> Result<FollowEnd, SessionFault>
    ensures follows { (heard : Heard) → Stands F.size incoming.old heard
        → FollowsTo F.size (S.shown shows.now) turns heard result incoming.new (L.calls link.old) (L.calls link.new) (O.taken out.old) (O.taken out.new) }
    ensures link_fault { result ≡ Err SessionFault.LinkFault → Rose (L.faults link.old) (L.faults link.new) }
    ensures write_fault { result ≡ Ok FollowEnd.WriteFault → Rose (O.faults out.old) (O.faults out.new) }
    ensures later { L.faults link.old ≤ L.faults link.new }
    ensures later_open { L.open_faults link.old ≤ L.open_faults link.new }
    ensures later_write { O.faults out.old ≤ O.faults out.new }
{
    for _ in 0..turns {
        let stop = turn(alloc, link, incoming, shows, out)?;
        match stop {
            Some(end) => return Ok(end),
            None => {}
        }
    }
    Ok(FollowEnd::TurnsSpent)
}

// One turn, and how the following ends with it, if it does.
fn turn<L: Link, F: Framing, S: Shows<F>, O: Sink>(
    alloc: Global,
    link: &mut L,
    incoming: &mut Incoming<F>,
    shows: &S,
    out: &mut O,
) -> Result<Option<FollowEnd>, SessionFault>
    ensures turns { (heard : Heard) → Stands F.size incoming.old heard
        → Turns F.size (S.shown shows.now) heard result incoming.new (L.calls link.old) (L.calls link.new) (O.taken out.old) (O.taken out.new) }
    ensures link_fault { result ≡ Err SessionFault.LinkFault → Rose (L.faults link.old) (L.faults link.new) }
    ensures write_fault { result ≡ Ok (Some FollowEnd.WriteFault) → Rose (O.faults out.old) (O.faults out.new) }
    ensures later { L.faults link.old ≤ L.faults link.new }
    ensures later_open { L.open_faults link.old ≤ L.open_faults link.new }
    ensures later_write { O.faults out.old ≤ O.faults out.new }
{
    match next_mark(link, incoming) {
        Mark::Message(found) => show_message(alloc, shows, incoming.bytes(found), out),
        Mark::Quiet => Ok(None),
        Mark::End => Ok(Some(FollowEnd::LinkEnd)),
        Mark::Bad { place } => Err(SessionFault::Broken { place }),
        Mark::Failed => Err(SessionFault::LinkFault),
    }
}

// Writes the lines of a message.
fn show_message<F: Framing, S: Shows<F>, O: Sink>(
    alloc: Global,
    shows: &S,
    message: &[u8],
    out: &mut O,
) -> Result<Option<FollowEnd>, SessionFault>
    requires { IsMessage F.size message.now }
    ensures writes { Writes (S.shown shows.now message.now) (O.taken out.old) result (O.taken out.new) }
    ensures link_fault { ¬ (result ≡ Err SessionFault.LinkFault) }
    ensures write_fault { result ≡ Ok (Some FollowEnd.WriteFault) → Rose (O.faults out.old) (O.faults out.new) }
    ensures later_write { O.faults out.old ≤ O.faults out.new }
{
    let mut lines = Octets::new(alloc);
    shows.show(alloc, &mut lines, message)?;
    match write_all_to(out, lines.as_slice()) {
        Ok(()) => Ok(None),
        Err(WriteFault) => Ok(Some(FollowEnd::WriteFault)),
    }
}
