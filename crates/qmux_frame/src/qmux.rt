ghost use Rattle.qmux_frame.specs.Framing.{size_of-kept, size_of-told, size_of-positive, size_of-begins, size_of-bounded};

use framing::{Framing, Size};
use kit_bytes::u16_at;

/// The framing of QMUX.
#[derive(Clone, Copy, PartialEq, Eq)]
pub struct Qmux;

impl Framing for Qmux {
    ghost use Rattle.qmux_frame.specs.Frame.{size_of};

    ghost LONGEST = { 65536 };

    ghost size = { size_of };

    ghost kept = { size_of-kept };

    ghost told = { size_of-told };

    ghost positive = { size_of-positive };

    ghost begins = { size_of-begins };

    ghost bounded = { size_of-bounded };

    const LONGEST: u32 = 65_536;

    fn size(bytes: &[u8]) -> Size {
        match bytes.first() {
            None => return Size::Unknown,
            Some(first) if *first != 1 => return Size::Invalid,
            Some(_) => {}
        }
        if bytes.len() < 3 {
            return Size::Unknown;
        }
        let length = usize::from(u16_at(bytes, 1));
        if length < 11 {
            Size::Invalid
        } else {
            Size::Known(length + 1)
        }
    }
}
