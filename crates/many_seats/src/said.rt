ghost use Rattle.std.specs.Prelude.{◌≡◌, ◌≤◌, ◌+◌, ◌++◌, [], length, IfOk};

use kit_bytes::append;
use std::alloc::{AllocError, Global};
use std::marker::Model;

/// The room for what a client says before it has chosen a device: less than a message, and the piece
/// with which it chooses.
const ROOM: usize = 81_920;

/// What a client said that hasn't chosen a device yet.
#[derive(Drop)]
pub struct Said {
    bytes: Vec<u8>,
}

impl Model for Said {
    ghost use Rattle.std.specs.Prelude.{ℕ, ◌≤◌, List, vec_capacity};

    ghost Value = { List ℕ };

    ghost view = { λ s. s.bytes.items };

    ghost invariant = { λ s. 81920 ≤ vec_capacity s.bytes };
}

impl Said {
    /// It said nothing. This takes all the memory that it will ever need.
    pub fn open(alloc: Global) -> Result<Self, AllocError>
        ensures { IfOk result (λ said. said ≡ []) }
    {
        Ok(Said {
            bytes: Vec::with_capacity(alloc, ROOM)?,
        })
    }

    pub fn add(&mut self, piece: &[u8])
        requires { length self.old + length piece.now ≤ 81920 }
        ensures { self.new ≡ self.old ++ piece.now }
    {
        append(&mut self.bytes, piece);
    }

    pub fn clear(&mut self)
        ensures { self.new ≡ [] }
    {
        self.bytes.clear();
    }

    pub fn bytes(&self) -> &[u8]
        ensures { result.now ≡ self.now }
    {
        &self.bytes
    }
}
