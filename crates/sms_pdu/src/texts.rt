ghost use Rattle.std.specs.Prelude.{◌≡◌, bytes_eq, IfOk};

use kit_bytes::Text;
use std::alloc::{AllocError, Global};

/// The text of these characters.
pub(crate) fn text_of(alloc: Global, chars: &[char]) -> Result<Text, AllocError>
    ensures { IfOk result (λ text. text ≡ chars.now) }
{
    let mut text = String::new(alloc);
    for char in chars {
        text.push(*char)?;
    }
    Ok(Text::from(text))
}

pub(crate) fn copy_of(alloc: Global, text: &Text) -> Result<Text, AllocError>
    ensures { IfOk result (λ copy. copy ≡ text.now) }
{
    Text::from_str(alloc, text.as_str())
}

/// Whether they have the same characters.
pub(crate) fn same_text(one: &Text, other: &Text) -> bool
    ensures { result ≡ bytes_eq one.now other.now }
{
    one.as_str() == other.as_str()
}
