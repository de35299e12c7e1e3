ghost use Rattle.std.specs.Prelude.{◌≡◌, ◌++◌, ◌∷◌, [], ℕ, List, OnOk, IfOk};
ghost use Rattle.link_io.specs.Calls.{Call};
ghost use Rattle.link_session.specs.Peer.{Peer};

use kit_bytes::Octets;
use std::alloc::AllocError;

/// Who answers each text at once.
pub trait Answerer: Drop {
    /// What it says to texts.
    ghost peer: { Self → Peer };

    /// These texts have come to it, the oldest first.
    ghost has_met: { List (List ℕ) → Self → Type 0 };

    /// Calls that name it, and these behind them.
    ghost named: { Self → List Call → List Call };

    /// What it says to a text. Where memory runs out, it is only to be dropped.
    fn answer(&mut self, text: &[u8]) -> Result<Octets, AllocError>
        ensures says { IfOk result (λ octets. (texts : List (List ℕ)) → has_met texts self.old → octets ≡ peer self.old (texts ++ text.now ∷ [])) }
        ensures met { OnOk result ((texts : List (List ℕ)) → has_met texts self.old → has_met (texts ++ text.now ∷ []) self.new) }
        ensures named { OnOk result ((calls : List Call) → named self.new calls ≡ named self.old calls) };

    /// More calls stand behind the others.
    ghost named_behind: { (a : Self) (calls more : List Call) → named a (calls ++ more) ≡ named a calls ++ more };

    /// The calls that name it tell what it says.
    ghost naming: { (a b : Self) (calls more : List Call) → named a calls ≡ named b more → (peer a ≡ peer b) × (calls ≡ more) };
}
