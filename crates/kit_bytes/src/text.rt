ghost use Rattle.std.specs.Prelude.{◌≡◌, string_bytes, OnOk, IfOk};
ghost use Rattle.std.specs.Str.{encode_utf8_all};

use std::alloc::{AllocError, Global};
use std::marker::Model;

/// A list of characters. It keeps and lends them as UTF-8.
#[derive(Debug, Drop)]
pub struct Text {
    text: String,
}

impl Model for Text {
    ghost use Rattle.std.specs.Prelude.{◌≡◌, ℕ, List, string_bytes};
    ghost use Rattle.std.specs.Str.{chars, encode_utf8_all};

    ghost Value = { List ℕ };

    ghost view = { λ t. chars (string_bytes t.text) };

    ghost invariant = { λ t. encode_utf8_all (chars (string_bytes t.text)) ≡ string_bytes t.text };
}

impl Text {
    /// A copy of these characters.
    pub fn from_str(alloc: Global, text: &str) -> Result<Self, AllocError>
        ensures { IfOk result (λ copy. encode_utf8_all copy ≡ text.now) }
    {
        let text = String::from_str(alloc, text)?;
        Ok(Text::from(text))
    }

    pub fn as_str(&self) -> &str
        ensures { result.now ≡ encode_utf8_all self.now }
    {
        &self.text
    }

    /// Gives the string back that holds the characters.
    pub fn into_string(self) -> String
        ensures { string_bytes result ≡ encode_utf8_all self }
    {
        self.text
    }
}

impl From<String> for Text {
    ghost from_gives = { λ string text. encode_utf8_all text ≡ string_bytes string };

    fn from(text: String) -> Self {
        let _utf8 = text.as_str();
        Text { text }
    }
}
