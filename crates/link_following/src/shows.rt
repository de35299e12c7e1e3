ghost use Rattle.std.specs.Prelude.{◌≡◌, ◌++◌, ℕ, List, OnOk};
ghost use Rattle.framing.specs.Framing.{IsMessage};

use framing::Framing;
use kit_bytes::Octets;
use std::alloc::{AllocError, Global};

/// Shows messages in lines.
pub trait Shows<F: Framing> {
    /// The lines of a message, none where it isn't shown.
    ghost shown: { Self → List ℕ → List ℕ };

    /// Adds the lines of a message.
    fn show(&self, alloc: Global, lines: &mut Octets, message: &[u8]) -> Result<(), AllocError>
        requires { IsMessage F.size message.now }
        ensures { OnOk result (lines.new ≡ lines.old ++ shown self.now message.now) };
}
