ghost use Rattle.std.specs.Prelude.{◌≡◌, ◌∷◌, [], ◌++◌, ℕ, List, OnOk};
ghost use Rattle.framing.specs.Framing.{IsMessage};
ghost use Rattle.stream_lines.specs.Lines.{Showing, place_behind};

use framing::Framing;
use kit_bytes::Octets;
use std::alloc::{AllocError, Global};

/// Shows the messages of a stream in lines, one after another.
pub trait Shows: Drop {
    /// How the stream is cut into messages.
    type Frames: Framing;

    /// It shows messages like this, and has shown these.
    ghost shows: { Showing → List (List ℕ) → Self → Type 0 };

    /// Adds the lines of the next message, which stands at a place of the stream. Where memory runs
    /// out, nothing more is to be shown.
    fn show(
        &mut self,
        alloc: Global,
        lines: &mut Octets,
        place: u64,
        message: &[u8],
    ) -> Result<(), AllocError>
        requires { IsMessage Self.Frames.size message.now }
        ensures lines { OnOk result ((shown : Showing) (before : List (List ℕ)) → shows shown before self.old → place ≡ place_behind before → lines.new ≡ lines.old ++ shown before message.now) }
        ensures shows { OnOk result ((shown : Showing) (before : List (List ℕ)) → shows shown before self.old → shows shown (before ++ message.now ∷ []) self.new) };
}
