ghost use Rattle.std.specs.Prelude.{◌≡◌, [], true, IfOk};

use kit_bytes::Cut;
use node_frame::Cutter;
use std::alloc::{AllocError, Global};

/// The stream that goes to a modem's node: where its messages end.
#[derive(Drop)]
pub(crate) struct Stream {
    pub(crate) cutter: Cutter,
    /// How many bytes of the message that comes next are written.
    pub(crate) begun: usize,
    /// Whether messages begin all that has come so far.
    pub(crate) is_framed: bool,
}

impl Stream {
    ghost use Rattle.pump.specs.Stream.{HasBegun, IsReady, Passes, StandsFor};

    /// A stream of which nothing has come.
    pub(crate) fn open(alloc: Global) -> Result<Self, AllocError>
        ensures ready { IfOk result (λ stream. IsReady stream) }
        ensures stands { IfOk result (λ stream. StandsFor stream []) }
    {
        Ok(Stream {
            cutter: Cutter::open(alloc)?,
            begun: 0,
            is_framed: true,
        })
    }

    /// Passes over the next whole message, and gives how many of its bytes are yet to be written.
    /// The stream isn't framed any more where no message begins like what is left.
    pub(crate) fn pass(&mut self) -> Option<usize>
        requires { HasBegun self.old }
        ensures { Passes self.old result self.new }
    {
        match self.cutter.next() {
            Cut::Whole(span) => {
                let left = span.end - span.start - self.begun;
                self.begun = 0;
                Some(left)
            }
            Cut::NeedMore => None,
            Cut::Bad(_) => {
                self.is_framed = false;
                None
            }
        }
    }
}
