ghost use Rattle.std.specs.Prelude.{◌≡◌, ◌+◌, ◌≤◌, ◌++◌, [], length, IfOk};

use crate::assembly::LONGEST_BODY;
use kit_bytes::append;
use std::alloc::{AllocError, Global};
use std::marker::Model;

/// The body of a message. It has the room for the longest one.
#[derive(Drop)]
pub struct Body {
    bytes: Vec<u8>,
}

impl Model for Body {
    ghost use Rattle.std.specs.Prelude.{◌≤◌, ℕ, List, vec_capacity, vec_len};

    ghost Value = { List ℕ };

    ghost view = { λ body. body.bytes.items };

    ghost invariant = { λ body. record {
      room : 65536 ≤ vec_capacity body.bytes;
      short : vec_len body.bytes ≤ 65536;
    } };
}

impl Body {
    /// An empty body. This takes all the memory that it will ever need.
    pub fn open(alloc: Global) -> Result<Self, AllocError>
        ensures { IfOk result (λ body. body ≡ []) }
    {
        Ok(Body {
            bytes: Vec::with_capacity(alloc, LONGEST_BODY)?,
        })
    }

    pub fn as_slice(&self) -> &[u8]
        ensures bytes { result.now ≡ self.now }
        ensures short { length self.now ≤ LONGEST_BODY }
    {
        &self.bytes
    }

    pub(crate) fn len(&self) -> usize
        ensures count { result ≡ length self.now }
        ensures short { length self.now ≤ LONGEST_BODY }
    {
        self.bytes.len()
    }

    pub(crate) fn clear(&mut self)
        ensures { self.new ≡ [] }
    {
        self.bytes.clear();
    }

    // Puts these bytes in the place of those that are there.
    pub(crate) fn set(&mut self, bytes: &[u8])
        requires { length bytes.now ≤ LONGEST_BODY }
        ensures { self.new ≡ bytes.now }
    {
        self.bytes.clear();
        append(&mut self.bytes, bytes);
    }

    // Adds a part behind those that are there.
    pub(crate) fn append(&mut self, part: &[u8])
        requires { length self.old + length part.now ≤ LONGEST_BODY }
        ensures { self.new ≡ self.old ++ part.now }
    {
        append(&mut self.bytes, part);
    }
}
