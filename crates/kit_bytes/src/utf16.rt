ghost use Rattle.std.specs.Prelude.{◌≡◌, [], ◌∷◌, ◌++◌, ◌<◌, length, OnOk, IfOk};
ghost use Rattle.kit_bytes.specs.declared.utf16.Utf16Fault.TheVariants.{OutOfMemory};
ghost use Rattle.kit_bytes.specs.Utf16.{utf16_bytes, is_utf16, ReadsUtf16, ReadsCharAt};

use crate::{Octets, Text, u16_at, u16_bytes};
use std::alloc::{AllocError, Global};
use thiserror::Error;

/// Why bytes aren't read as UTF-16.
#[derive(Clone, Copy, Debug, PartialEq, Eq, Error)]
pub enum Utf16Fault {
    /// The unit that begins at this place is an unpaired surrogate, or lacks its second byte.
    #[error("the unit at byte {place} stands alone")]
    Lone { place: usize },
    #[error("out of memory")]
    OutOfMemory,
}

impl From<AllocError> for Utf16Fault {
    ghost from_gives = { λ _ fault. fault ≡ OutOfMemory };

    fn from(_: AllocError) -> Self {
        Utf16Fault::OutOfMemory
    }
}

/// The text that these bytes spell in UTF-16, little endian, or the place at which they spell none.
pub fn text_from_utf16(alloc: Global, bytes: &[u8]) -> Result<Text, Utf16Fault>
    ensures { ReadsUtf16 bytes.now result }
{
    let mut text = String::new(alloc);
    let mut place = 0;
    while place < bytes.len() {
        let Some((char, next)) = char_at(bytes, place) else {
            return Err(Utf16Fault::Lone { place });
        };
        text.push(char)?;
        place = next;
    }
    Ok(Text::from(text))
}

/// Whether these bytes spell a text in UTF-16, little endian. It takes no memory.
pub fn is_utf16(bytes: &[u8]) -> bool
    ensures { result ≡ is_utf16 bytes.now }
{
    let mut place = 0;
    while place < bytes.len() {
        let Some((_, next)) = char_at(bytes, place) else {
            return false;
        };
        place = next;
    }
    true
}

// The character at this place, and where the next one begins.
fn char_at(bytes: &[u8], place: usize) -> Option<(char, usize)>
    requires { place < length bytes.now }
    ensures { ReadsCharAt bytes.now place result }
{
    let left = bytes.len() - place;
    if left < 2 {
        return None;
    }
    let first = u32::from(u16_at(bytes, place));
    if first < 0xD800 || 0xE000 <= first {
        return Some((char::from_u32(first)?, place + 2));
    }
    if 0xDC00 <= first || left < 4 {
        return None;
    }
    let second = u32::from(u16_at(bytes, place + 2));
    if second < 0xDC00 || 0xE000 <= second {
        return None;
    }
    let code = 0x1_0000 + (first - 0xD800) * 0x400 + (second - 0xDC00);
    Some((char::from_u32(code)?, place + 4))
}

/// The bytes of a text in UTF-16, little endian.
pub fn utf16_from_text(alloc: Global, text: &Text) -> Result<Octets, AllocError>
    ensures { IfOk result (λ octets. octets ≡ utf16_bytes text.now) }
{
    let mut octets = Octets::new(alloc);
    for char in text.as_str().chars() {
        extend_from_char(&mut octets, char)?;
    }
    Ok(octets)
}

// Adds the bytes of a character.
fn extend_from_char(octets: &mut Octets, char: char) -> Result<(), AllocError>
    ensures { OnOk result (octets.new ≡ octets.old ++ utf16_bytes (char ∷ [])) }
{
    let mut pair = [0; 2];
    let units = char.encode_utf16(&mut pair);
    for unit in units.iter() {
        octets.extend_from_slice(&u16_bytes(*unit))?;
    }
    Ok(())
}
