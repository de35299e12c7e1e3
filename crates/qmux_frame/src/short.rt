ghost use Rattle.std.specs.Prelude.{◌≡◌, ◌+◌, ◌≤◌, [], ◌++◌, length};

use std::marker::Model;

/// Up to 20 bytes of a message. They take no memory.
#[derive(Clone, Copy)]
pub struct ShortBytes {
    bytes: [u8; 20],
    count: usize,
}

impl Model for ShortBytes {
    ghost use Rattle.std.specs.Prelude.{ℕ, List, length, take};
    ghost use Rattle.qmux_frame.specs.Padding.{IsPadded, padded, padded-take};

    ghost Value = { List ℕ };

    ghost view = { λ short. take short.count short.bytes };

    ghost invariant = { λ short. IsPadded short.count short.bytes };

    ghost inverse = { λ list. record { bytes = padded list; count = length list } };

    ghost inverse_ok = { λ short is. padded-take (λ bytes count. record { bytes = bytes; count = count }) is };
}

impl ShortBytes {
    pub fn bytes(&self) -> &[u8]
        ensures { result.now ≡ self.now }
    {
        &self.bytes[..self.count]
    }

    pub(crate) fn new() -> Self
        ensures { result ≡ [] }
    {
        ShortBytes {
            bytes: [0; 20],
            count: 0,
        }
    }

    pub(crate) fn push(&mut self, part: &[u8])
        requires { length self.old + length part.now ≤ 20 }
        ensures { self.new ≡ self.old ++ part.now }
    {
        let end = self.count + part.len();
        self.bytes[self.count..end].copy_from_slice(part);
        self.count = end;
    }
}
