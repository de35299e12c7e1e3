ghost use Rattle.std.specs.Prelude.{◌≡◌};
ghost use Rattle.link_session.specs.declared.fault.SessionFault.TheVariants.{OutOfMemory};

use std::alloc::AllocError;
use thiserror::Error;

/// Why a session has no end of its own.
#[derive(Clone, Copy, Debug, PartialEq, Eq, Error)]
pub enum SessionFault {
    /// A call on the link failed.
    #[error("the link failed")]
    LinkFault,
    /// The other side has ended.
    #[error("the link ended")]
    LinkEnd,
    /// Too many takes since the last request gave nothing.
    #[error("no answer came in time")]
    TimedOut,
    /// From this place in the stream on come bytes that begin no message, or an answer that begins
    /// there isn't framed or doesn't read.
    #[error("what comes is broken from byte {place} on")]
    Broken { place: u64 },
    /// Too many messages came since the last request without its answer.
    #[error("too many messages came without an answer")]
    Flooded,
    #[error("out of memory")]
    OutOfMemory,
}

impl From<AllocError> for SessionFault {
    ghost from_gives = { λ _ fault. fault ≡ OutOfMemory };

    fn from(_: AllocError) -> Self {
        SessionFault::OutOfMemory
    }
}
