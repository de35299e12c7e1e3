ghost use Rattle.std.specs.Prelude.{◌≡◌, ◌∷◌, ℕ, List, OnOk, IfOk};
ghost use Rattle.framing.specs.Framing.{IsMessage};
ghost use Rattle.sim_modem.specs.Sim.{Answering};

use framing::Framing;
use kit_bytes::Octets;
use std::alloc::AllocError;

/// A modem that is simulated: it answers whole requests, one after another.
pub trait Sim: Drop {
    /// How the streams of its clients are cut into requests.
    type Framing: Framing;

    /// It keeps what a modem with these answers has to keep of these requests, the newest first.
    ghost keeps: { Answering → List (List ℕ) → Self → Type 0 };

    /// The modem's messages after one whole request. Where memory runs out, the modem is only to be
    /// dropped.
    fn ask(&mut self, message: &[u8]) -> Result<Octets, AllocError>
        requires { IsMessage Self.Framing.size message.now }
        ensures keeps { OnOk result ((answers : Answering) (past : List (List ℕ)) → keeps answers past self.old → keeps answers (message.now ∷ past) self.new) }
        ensures answers { IfOk result (λ octets. (answers : Answering) (past : List (List ℕ)) → keeps answers past self.old → octets ≡ answers past message.now) };
}
