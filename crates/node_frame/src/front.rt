ghost use Rattle.std.specs.Prelude.{◌≡◌, ◌≤◌, length};
ghost use Rattle.std.specs.List.{concat};
ghost use Rattle.framing.specs.Cutting.{cut};
ghost use Rattle.node_frame.specs.Frame.{size_of};

use crate::NodeMessage;
use framing::{Framing, Size};

/// How many bytes the whole messages at the front of these bytes have together.
pub fn whole_front(bytes: &[u8]) -> usize
    ensures whole { result ≡ length (concat (cut size_of bytes.now).messages) }
    ensures within { result ≤ length bytes.now }
{
    let mut at = 0;
    loop {
        let count = match NodeMessage::size(&bytes[at..]) {
            Size::Known(count) => count,
            Size::Unknown | Size::Invalid => return at,
        };
        if bytes.len() - at < count {
            return at;
        }
        at += count;
    }
}
