ghost use Rattle.std.specs.Prelude.{◌≡◌, ◌≤◌};
ghost use Rattle.kit_io.specs.Causes.{Rose};
ghost use Rattle.link_session.specs.Waiting.{Heard};
ghost use Rattle.link_session.specs.Hearing.{IsReadable, Looks, Stands};

use crate::incoming::{Found, Incoming, Next};
use framing::Framing;
use kit_io::Failed;
use link_io::{Link, TAKE_ROOM, Taken};

/// What a session notices, one after the other.
#[derive(Clone, Copy, PartialEq, Eq)]
pub enum Mark {
    Message(Found),
    /// Bytes that begin no message, from this place on.
    Bad { place: u64 },
    /// Nothing came in a tick.
    Quiet,
    /// The other side has ended.
    End,
    /// A take failed.
    Failed,
}

/// The next mark. Nothing is taken while there is one in what was taken.
pub fn next_mark<L: Link, F: Framing>(link: &mut L, incoming: &mut Incoming<F>) -> Mark
    ensures looks { (heard : Heard) → Stands F.size incoming.old heard → Looks F.size heard result incoming.new (L.calls link.old) (L.calls link.new) }
    ensures readable { IsReadable F.size result incoming.new }
    ensures failed { result ≡ Mark.Failed → Rose (L.faults link.old) (L.faults link.new) }
    ensures later { L.faults link.old ≤ L.faults link.new }
    ensures later_open { L.open_faults link.old ≤ L.open_faults link.new }
{
    let mut buffer = [0u8; TAKE_ROOM];
    loop {
        match incoming.next() {
            Next::Message(found) => return Mark::Message(found),
            Next::Bad { place } => return Mark::Bad { place },
            Next::NeedMore => {}
        }
        match link.take(&mut buffer) {
            Ok(Taken::Bytes(count)) => incoming.push(&buffer[..count]),
            Ok(Taken::Quiet) => return Mark::Quiet,
            Ok(Taken::End) => return Mark::End,
            Err(Failed) => return Mark::Failed,
        }
    }
}
