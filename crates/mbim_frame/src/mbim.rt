ghost use Rattle.mbim_frame.specs.Framing.{size_of-kept, size_of-told, size_of-positive, size_of-begins, size_of-bounded};

use framing::{Framing, Size};
use kit_bytes::u32_at;

/// The framing of MBIM.
#[derive(Clone, Copy, PartialEq, Eq)]
pub struct Mbim;

impl Framing for Mbim {
    ghost use Rattle.mbim_frame.specs.Frame.{size_of};

    ghost LONGEST = { 65556 };

    ghost size = { size_of };

    ghost kept = { size_of-kept };

    ghost told = { size_of-told };

    ghost positive = { size_of-positive };

    ghost begins = { size_of-begins };

    ghost bounded = { size_of-bounded };

    const LONGEST: u32 = 65_556;

    fn size(bytes: &[u8]) -> Size {
        if bytes.len() < 8 {
            return Size::Unknown;
        }
        let length = u32_at(bytes, 4);
        if length < 12 || Self::LONGEST < length {
            Size::Invalid
        } else {
            Size::Known(length as usize)
        }
    }
}
