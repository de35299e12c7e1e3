ghost use Rattle.std.specs.Prelude.{◌≡◌, IfOk};
ghost use Rattle.printed_ends.specs.Held.{IsTold};

use crate::printed::Printed;
use kit_bytes::Octets;
use peer_link::{Answerer, PeerLink};
use std::alloc::AllocError;

/// The status of a tool to which no answer came in time.
const SILENCE: u8 = 5;

/// What a session prints, and the texts that it sent.
#[derive(Drop)]
pub struct Held {
    pub printed: Printed,
    pub texts: Vec<Octets>,
}

/// What a session comes to that was had over this link, and prints this.
///
/// The link is never silent before its peer is: where something waits behind silence, memory ran out.
pub fn held_over<A: Answerer>(link: &PeerLink<A>, printed: Printed) -> Result<Held, AllocError>
    ensures printed { IfOk result (λ held. held.printed ≡ printed) }
    ensures told { IfOk result (IsTold A.peer link.now) }
{
    if !link.is_recorded() {
        return Err(AllocError);
    }
    if printed.status == SILENCE && !link.is_drained() {
        return Err(AllocError);
    }
    let texts = link.texts()?;
    Ok(Held { printed, texts })
}
