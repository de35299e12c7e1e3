ghost use Rattle.std.specs.Prelude.{◌≡◌, true, IfOk, IsTrue};
ghost use Rattle.std.specs.Str.{chars};
ghost use Rattle.serde_json.specs.View.{view};
ghost use Rattle.modem_profile.specs.Limits.{IsShortAscii, is_short_ascii};
ghost use Rattle.modem_profile.specs.Values.{ascii_text};

use kit_bytes::Text;
use serde_json::Value;
use std::alloc::{AllocError, Global};
use std::marker::Model;

/// A text of at most 100 characters, all of ASCII, each of which is one byte.
#[derive(Drop)]
pub struct AsciiText {
    text: Text,
}

impl Model for AsciiText {
    ghost use Rattle.std.specs.Prelude.{ℕ, List};
    ghost use Rattle.modem_profile.specs.Limits.{IsShortAscii};

    ghost Value = { List ℕ };

    ghost view = { λ ascii. ascii.text };

    ghost invariant = { λ ascii. IsShortAscii ascii.text };
}

impl AsciiText {
    /// A copy of this text.
    pub fn from_str(alloc: Global, text: &str) -> Result<Self, AllocError>
        requires { IsTrue (is_short_ascii text.now) }
        ensures { IfOk result (λ copy. copy ≡ text.now) }
    {
        let text = Text::from_str(alloc, text)?;
        Ok(AsciiText { text })
    }

    pub fn as_str(&self) -> &str
        ensures same { result.now ≡ self.now }
        ensures limit { IsShortAscii self.now }
    {
        self.text.as_str()
    }

    pub fn value(&self) -> &Text
        ensures same { result.now ≡ self.now }
        ensures limit { IsShortAscii self.now }
    {
        &self.text
    }

    /// A copy of it.
    pub fn copy(&self, alloc: Global) -> Result<Self, AllocError>
        ensures { IfOk result (λ copy. copy ≡ self.now) }
    {
        let text = Text::from_str(alloc, self.text.as_str())?;
        Ok(AsciiText { text })
    }
}

fn is_short_ascii(text: &str) -> bool
    ensures exact { result ≡ is_short_ascii (chars text.now) }
    ensures bytes { IsTrue result → chars text.now ≡ text.now }
{
    text.is_ascii() && text.len() <= 100
}

/// The text that a value is, where it is one of at most 100 ASCII characters.
#[tactic(auto, unfolding(crate::specs::Values::ascii_text))]
pub(crate) fn ascii_text(alloc: Global, value: &Value) -> Result<Option<AsciiText>, AllocError>
    ensures { IfOk result (λ text. text ≡ ascii_text (view value.now)) }
{
    match value.as_str() {
        Some(text) if is_short_ascii(text) => {
            let text = AsciiText::from_str(alloc, text)?;
            Ok(Some(text))
        }
        _ => Ok(None),
    }
}
