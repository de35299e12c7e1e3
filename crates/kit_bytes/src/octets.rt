ghost use Rattle.std.specs.Prelude.{◌≡◌, [], ◌++◌, IfOk, OnOk, OnErr};

use std::alloc::{AllocError, Global};
use std::marker::Model;

/// A list of bytes.
#[derive(Debug, Drop)]
pub struct Octets {
    bytes: Vec<u8>,
}

impl Model for Octets {
    ghost use Rattle.std.specs.Prelude.{ℕ, List};

    ghost Value = { List ℕ };

    ghost view = { λ octets. octets.bytes.items };
}

impl Octets {
    /// The empty list, which takes no memory.
    pub fn new(alloc: Global) -> Self
        ensures { result ≡ [] }
    {
        Octets {
            bytes: Vec::new(alloc),
        }
    }

    /// A copy of these bytes.
    pub fn from_slice(alloc: Global, bytes: &[u8]) -> Result<Self, AllocError>
        ensures { IfOk result (λ octets. octets ≡ bytes.now) }
    {
        Ok(Octets {
            bytes: Vec::from_slice(alloc, bytes)?,
        })
    }

    /// Adds these bytes behind those that are there.
    pub fn extend_from_slice(&mut self, bytes: &[u8]) -> Result<(), AllocError>
        ensures ok { OnOk result (self.new ≡ self.old ++ bytes.now) }
        ensures err { OnErr result (self.new ≡ self.old) }
    {
        self.bytes.extend_from_slice(bytes)
    }

    /// Adds these bytes and then those, or none where the memory doesn't do for all.
    pub fn extend_from_slices(&mut self, front: &[u8], back: &[u8]) -> Result<(), AllocError>
        ensures ok { OnOk result (self.new ≡ self.old ++ front.now ++ back.now) }
        ensures err { OnErr result (self.new ≡ self.old) }
    {
        self.bytes.try_reserve(front.len() + back.len())?;
        self.bytes.extend_from_slice(front)?;
        self.bytes.extend_from_slice(back)
    }

    pub fn as_slice(&self) -> &[u8]
        ensures { result.now ≡ self.now }
    {
        &self.bytes
    }

    /// Gives the vector back that holds the bytes.
    pub fn into_vec(self) -> Vec<u8>
        ensures { result.items ≡ self }
    {
        self.bytes
    }
}

impl From<Vec<u8>> for Octets {
    ghost from_gives = { λ bytes octets. octets ≡ bytes.items };

    fn from(bytes: Vec<u8>) -> Self {
        Octets { bytes }
    }
}
