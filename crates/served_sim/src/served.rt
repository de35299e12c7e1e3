ghost use Rattle.std.specs.Prelude.{◌≡◌, ◌+◌, ◌∷◌, ℕ, List, OnOk, IfOk};
ghost use Rattle.framing.specs.Framing.{IsMessage};
ghost use Rattle.served_sim.specs.Conduct.{Conduct, Tells, TakesClock};

use framing::Framing;
use kit_bytes::Octets;
use std::alloc::AllocError;

/// What a modem does at a message.
#[derive(Drop)]
pub struct Reply {
    /// What it sends, one message behind the other.
    pub messages: Octets,
    /// Whether it hangs up whoever sent the message.
    pub hangs_up: bool,
    /// After how many ticks of the clock the messages go; 0 is at once.
    pub late: u32,
}

/// A simulated modem that may hang its clients up, answer late, and tell something by the clock.
pub trait ServedSim: Drop {
    /// How the streams of its clients are cut into requests.
    type Framing: Framing;

    /// Behind so many ticks of the clock it keeps what a modem that behaves so has to keep of these
    /// requests, the newest first.
    ghost keeps: { ℕ → Conduct → List (List ℕ) → Self → Type 0 };

    /// Whether the clock may matter to it.
    ghost by_clock: { Type 0 };

    /// What the modem does at one whole request. Where memory runs out, the modem is only to be
    /// dropped.
    fn ask(&mut self, message: &[u8]) -> Result<Reply, AllocError>
        requires { IsMessage Self.Framing.size message.now }
        ensures keeps { OnOk result ((ticks : ℕ) (conduct : Conduct) (past : List (List ℕ)) → keeps ticks conduct past self.old → keeps ticks conduct (message.now ∷ past) self.new) }
        ensures answers { IfOk result (λ reply. (ticks : ℕ) (conduct : Conduct) (past : List (List ℕ)) → keeps ticks conduct past self.old → reply.messages ≡ conduct.answers past message.now) }
        ensures hangs_up { IfOk result (λ reply. (ticks : ℕ) (conduct : Conduct) (past : List (List ℕ)) → keeps ticks conduct past self.old → reply.hangs_up ≡ conduct.hangs_up past message.now) }
        ensures late { IfOk result (λ reply. (ticks : ℕ) (conduct : Conduct) (past : List (List ℕ)) → keeps ticks conduct past self.old → reply.late ≡ conduct.late past message.now) };

    /// The next tick of the clock, and what it brings each client. None where the clock doesn't matter
    /// to the modem, which then answers at once and tells nothing by it.
    fn tick(&mut self) -> Result<Option<Octets>, AllocError>
        ensures keeps { OnOk result ((ticks : ℕ) (conduct : Conduct) (past : List (List ℕ)) → keeps ticks conduct past self.old → keeps (ticks + 1) conduct past self.new) }
        ensures tells { IfOk result (λ told. (ticks : ℕ) (conduct : Conduct) (past : List (List ℕ)) → keeps ticks conduct past self.old → Tells conduct (ticks + 1) past told) }
        ensures clock { TakesClock by_clock result };
}
