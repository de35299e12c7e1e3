ghost use Rattle.std.specs.Prelude.{◌≡◌, ◌≤◌, [], Err, IfOk};
ghost use Rattle.kit_io.specs.Causes.{Rose};
ghost use Rattle.link_session.specs.Waiting.{Heard, waiting};
ghost use Rattle.link_session.specs.Hearing.{AsksFor, IsGiven, Stands};

use crate::fault::SessionFault;
use crate::incoming::{Found, Incoming};
use crate::waiting::{Awaits, wait_for};
use framing::Framing;
use kit_io::Failed;
use link_io::Link;

/// Sends the bytes of a request, and waits for its answer, for so many seconds.
pub fn exchange<L: Link, F: Framing, A: Awaits<F>>(
    link: &mut L,
    incoming: &mut Incoming<F>,
    request: &[u8],
    awaiting: &mut A,
    timeout: u16,
) -> Result<Found, SessionFault>
    requires { A.has_heard awaiting.old [] }
    ensures asks { (heard : Heard) → Stands F.size incoming.old heard
        → AsksFor (record { size = F.size; text = request.now; wait = waiting (A.judge awaiting.old) timeout }) (A.has_answer awaiting.new) heard result incoming.new (L.calls link.old) (L.calls link.new) }
    ensures given { IfOk result (IsGiven F.size incoming.new) }
    ensures number { A.number awaiting.new ≡ A.number awaiting.old }
    ensures link_fault { result ≡ Err SessionFault.LinkFault → Rose (L.faults link.old) (L.faults link.new) }
    ensures later { L.faults link.old ≤ L.faults link.new }
    ensures later_open { L.open_faults link.old ≤ L.open_faults link.new }
{
    if let Err(Failed) = link.send(request) {
        return Err(SessionFault::LinkFault);
    }
    wait_for(link, incoming, awaiting, timeout)
}

/// An answer that came, and what it says.
#[derive(Drop)]
pub struct Reply<A> {
    pub found: Found,
    pub answer: A,
}
