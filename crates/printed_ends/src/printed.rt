ghost use Rattle.std.specs.Prelude.{◌≡◌, ◌↔◌, [], IsTrue, OnOk, IfOk};
ghost use Rattle.printed_ends.specs.Printed.{IsByPeers, fault_status};

use kit_bytes::Octets;
use link_session::SessionFault;
use std::alloc::{AllocError, Global};

/// What a tool prints, and its exit status.
#[derive(Drop)]
pub struct Printed {
    pub text: Octets,
    pub status: u8,
}

/// What a command prints, at a modem itself and by another way: through a proxy, or carried by an MBIM modem.
#[derive(Drop)]
pub struct Twice {
    pub direct: Printed,
    pub through: Printed,
}

impl Printed {
    /// Whether the other one is the same.
    pub fn is(&self, other: &Printed) -> bool
        ensures { IsTrue result ↔ (self.now ≡ other.now) }
    {
        self.status == other.status && self.text.as_slice() == other.text.as_slice()
    }
}

/// What is printed where a session has no end of its own.
///
/// The link of such a session fails for want of memory alone and has no end: so the faults that aren't
/// named here come for want of memory.
pub fn print_fault(alloc: Global, why: SessionFault) -> Result<Printed, AllocError>
    ensures text { IfOk result (λ printed. printed.text ≡ []) }
    ensures status { IfOk result (λ printed. printed.status ≡ fault_status why) }
    ensures by_peer { OnOk result (IsByPeers why) }
{
    match why {
        SessionFault::TimedOut => Ok(nothing(alloc, 5)),
        SessionFault::Broken { .. } => Ok(nothing(alloc, 6)),
        SessionFault::Flooded => Ok(nothing(alloc, 7)),
        _ => Err(AllocError),
    }
}

/// What is printed where a modem refuses, and nothing is to be said of it.
pub(crate) fn refused(alloc: Global) -> Printed
    ensures text { result.text ≡ [] }
    ensures status { result.status ≡ 1 }
{
    nothing(alloc, 1)
}

fn nothing(alloc: Global, status: u8) -> Printed
    ensures text { result.text ≡ [] }
    ensures status { result.status ≡ status }
{
    Printed {
        text: Octets::new(alloc),
        status,
    }
}
