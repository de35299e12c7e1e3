ghost use Rattle.std.specs.Prelude.{◌≡◌, ◌≤◌, ℕ, List, Option, Result, Err, IfOk};
ghost use Rattle.kit_io.specs.Causes.{Rose};
ghost use Rattle.link_io.specs.Calls.{Call};
ghost use Rattle.link_session.specs.declared.fault.SessionFault.{SessionFault as Fault};
ghost use Rattle.link_session.specs.Asking.{Makes};
ghost use Rattle.tool_runs.specs.declared.session.Refusal.{Refusal as RefusalOf};

use kit_bytes::Octets;
use link_io::Link;
use link_session::SessionFault;
use std::alloc::{AllocError, Global};

/// How a modem, or its driver, refused what it was asked.
#[derive(Clone, Copy, PartialEq, Eq)]
pub struct Refusal {
    /// Whether by a function error, which no command is answered with.
    pub function: bool,
    pub code: u32,
}

/// A session with a modem that a command of a tool has. The plan of such sessions implements this.
pub trait Session {
    /// How a session ends that has an end of its own.
    type End: Drop;

    // which calls it makes, and how it ends
    ghost session: { Self → List Call → Result Self.End Fault → Type 0 };

    // what its end says: a refusal, or a text
    ghost refused: { Self.End → Option RefusalOf };

    ghost printed: { Self.End → List ℕ };

    // the bodies of the short messages that it holds
    ghost bodies: { Self.End → List (List ℕ) };

    /// Has the session over a link that is open.
    fn hold<L: Link>(&self, alloc: Global, link: &mut L) -> Result<Self::End, SessionFault>
        ensures holds { Makes (λ calls. session self.now calls result) (L.calls link.old) (L.calls link.new) }
        ensures link_fault { result ≡ Err SessionFault.LinkFault → Rose (L.faults link.old) (L.faults link.new) }
        ensures later { L.faults link.old ≤ L.faults link.new }
        ensures later_open { L.open_faults link.old ≤ L.open_faults link.new };

    /// The refusal, where it ended with one.
    fn refusal(end: &Self::End) -> Option<Refusal>
        ensures { result ≡ refused end.now };

    /// The text of its end.
    fn text(alloc: Global, end: &Self::End) -> Result<Octets, AllocError>
        ensures { IfOk result (λ text. text ≡ printed end.now) };

    /// The bodies of the short messages that it holds.
    fn bodies(alloc: Global, end: &Self::End) -> Result<Vec<Octets>, AllocError>
        ensures { IfOk result (λ list. list.items ≡ bodies end.now) };
}
