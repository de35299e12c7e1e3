ghost use Rattle.node_frame.specs.Framing.{size_of-kept, size_of-told, size_of-positive, size_of-begins, size_of-bounded};

use framing::{Framing, Size};
use mbim_frame::Mbim;
use qmux_frame::Qmux;

/// The framing of what a modem's node is written: messages of QMUX and of MBIM.
#[derive(Clone, Copy, PartialEq, Eq)]
pub struct NodeMessage;

impl Framing for NodeMessage {
    ghost use Rattle.node_frame.specs.Frame.{size_of};

    ghost LONGEST = { 65556 };

    ghost size = { size_of };

    ghost kept = { size_of-kept };

    ghost told = { size_of-told };

    ghost positive = { size_of-positive };

    ghost begins = { size_of-begins };

    ghost bounded = { size_of-bounded };

    const LONGEST: u32 = 65_556;

    fn size(bytes: &[u8]) -> Size {
        match Qmux::size(bytes) {
            Size::Invalid => Mbim::size(bytes),
            size => size,
        }
    }
}
