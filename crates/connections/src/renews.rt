ghost use Rattle.std.specs.Prelude.{◌≡◌, IfOk};

use std::alloc::{AllocError, Global};

/// What a protocol keeps of a client. Its memory is taken once, and serves one client after the
/// other.
pub trait Renews: Sized {
    ghost fresh: { Self };

    /// What is kept of a client that has just joined, with all the memory that it will ever need.
    fn open(alloc: Global) -> Result<Self, AllocError>
        ensures { IfOk result (λ client. client ≡ fresh) };

    /// From here on it is of a client that has just joined.
    fn renew(&mut self)
        ensures { self.new ≡ fresh };
}
