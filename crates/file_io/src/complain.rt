ghost use Rattle.std.specs.Prelude.{◌≡◌, ℕ, List};

use crate::Files;

/// Files that can say why a call failed.
pub trait Complain: Files {
    /// What the system says of the call that failed last.
    ghost words: { Self → List ℕ };

    fn words(&self) -> &str
        ensures { result.now ≡ words self.now };
}
