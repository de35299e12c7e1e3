ghost use Rattle.std.specs.Prelude.{◌≡◌, [], Some, OnOk};

use crate::{BYTES_ROOM, NOTES_ROOM, Notes};
use link_io::Link;
use std::alloc::AllocError;

/// A link that can be watched.
pub trait Watch: Link {
    ghost use Rattle.kit_io.specs.Record.{Logged};
    ghost use Rattle.watched_link.specs.declared.note.LinkNote.{LinkNote};
    ghost use Rattle.watched_link.specs.Notes.{calls_recorded};

    /// The notes of all that was done on it, where they are kept and fit.
    ghost notes: { Self → Logged LinkNote };

    /// Notes what is done on it, if nothing was done yet.
    fn watch(&mut self) -> Result<(), AllocError>
        ensures recorded { (notes self.new).recorded ≡ (notes self.old).recorded }
        ensures room { OnOk result ((notes self.old).recorded ≡ Some [] → (notes self.new).room ≡ NOTES_ROOM) }
        ensures bytes_room { OnOk result ((notes self.old).recorded ≡ Some [] → (notes self.new).bytes_room ≡ BYTES_ROOM) }
        ensures calls { Self.calls self.new ≡ Self.calls self.old }
        ensures ended { Self.ended self.new ≡ Self.ended self.old }
        ensures open_faults { Self.open_faults self.new ≡ Self.open_faults self.old }
        ensures faults { Self.faults self.new ≡ Self.faults self.old }
        ensures made { Self.made self.new ≡ Self.made self.old };

    /// The notes. They have the calls that the link tells of.
    fn notes(&self) -> &Notes
        ensures same { result.now ≡ notes self.now }
        ensures calls { Self.calls self.now ≡ calls_recorded (notes self.now).recorded };
}
