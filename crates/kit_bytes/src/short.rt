ghost use Rattle.std.specs.Prelude.{◌≡◌, ◌≤◌, length, IsSome, IfSome, IfOk, ◌↔◌};
ghost use Rattle.std.specs.Str.{encode_utf8_all};

use crate::{Octets, Text};
use std::alloc::{AllocError, Global};
use std::marker::Model;

pub const LONGEST_SHORT_TEXT: usize = 1_000;

pub const LONGEST_SHORT_OCTETS: usize = 255;

pub const LONGEST_PATH: usize = 4_096;

/// A text of at most 1,000 bytes.
#[derive(Debug, Drop)]
pub struct ShortText {
    text: Text,
}

impl Model for ShortText {
    ghost use Rattle.std.specs.Prelude.{ℕ, ◌≤◌, List, length};
    ghost use Rattle.std.specs.Str.{encode_utf8_all};

    ghost Value = { List ℕ };

    ghost view = { λ short. short.text };

    ghost invariant = { λ short. length (encode_utf8_all short.text) ≤ 1000 };
}

impl ShortText {
    /// The text as a short one, or None where it is longer.
    pub fn of(value: Text) -> Option<Self>
        ensures fits { IsSome result ↔ (length (encode_utf8_all value) ≤ LONGEST_SHORT_TEXT) }
        ensures same { IfSome result (λ short. short ≡ value) }
    {
        if value.as_str().len() <= LONGEST_SHORT_TEXT {
            Some(ShortText { text: value })
        } else {
            None
        }
    }

    pub fn value(&self) -> &Text
        ensures same { result.now ≡ self.now }
        ensures limit { length (encode_utf8_all self.now) ≤ LONGEST_SHORT_TEXT }
    {
        &self.text
    }
}

/// At most 255 bytes.
#[derive(Debug, Drop)]
pub struct ShortOctets {
    octets: Octets,
}

impl Model for ShortOctets {
    ghost use Rattle.std.specs.Prelude.{ℕ, ◌≤◌, List, length};

    ghost Value = { List ℕ };

    ghost view = { λ short. short.octets };

    ghost invariant = { λ short. length short.octets ≤ 255 };
}

impl ShortOctets {
    /// The bytes as a short list, or None where they are more.
    pub fn of(value: Octets) -> Option<Self>
        ensures fits { IsSome result ↔ (length value ≤ LONGEST_SHORT_OCTETS) }
        ensures same { IfSome result (λ short. short ≡ value) }
    {
        if value.as_slice().len() <= LONGEST_SHORT_OCTETS {
            Some(ShortOctets { octets: value })
        } else {
            None
        }
    }

    pub fn value(&self) -> &Octets
        ensures same { result.now ≡ self.now }
        ensures limit { length self.now ≤ LONGEST_SHORT_OCTETS }
    {
        &self.octets
    }
}

/// The text of a path, of at most 4,096 bytes.
#[derive(Debug, Drop)]
pub struct PathText {
    text: Text,
}

impl Model for PathText {
    ghost use Rattle.std.specs.Prelude.{ℕ, ◌≤◌, List, length};
    ghost use Rattle.std.specs.Str.{encode_utf8_all};

    ghost Value = { List ℕ };

    ghost view = { λ path. path.text };

    ghost invariant = { λ path. length (encode_utf8_all path.text) ≤ 4096 };
}

impl PathText {
    /// The text as a path, or None where it is longer.
    pub fn of(value: Text) -> Option<Self>
        ensures fits { IsSome result ↔ (length (encode_utf8_all value) ≤ LONGEST_PATH) }
        ensures same { IfSome result (λ path. path ≡ value) }
    {
        if value.as_str().len() <= LONGEST_PATH {
            Some(PathText { text: value })
        } else {
            None
        }
    }

    pub fn value(&self) -> &Text
        ensures same { result.now ≡ self.now }
        ensures limit { length (encode_utf8_all self.now) ≤ LONGEST_PATH }
    {
        &self.text
    }

    /// A copy of it.
    pub fn copy(&self, alloc: Global) -> Result<Self, AllocError>
        ensures { IfOk result (λ copy. copy ≡ self.now) }
    {
        let text = Text::from_str(alloc, self.text.as_str())?;
        Ok(PathText { text })
    }
}
