ghost use Rattle.std.specs.Prelude.{◌≡◌, ◌==◌, ◌++◌, ◌<◌, ◌≤◌, All, IfOk, length, position};
ghost use Rattle.gsm_text.specs.declared.codes.CodeFault.TheVariants.{OutOfMemory};
ghost use Rattle.gsm_text.specs.Alphabet.{char_codes, chars_of, code_of, extended_char, extension_char, extension_code, has_codes, SpellsText};

use crate::{ALPHABET, ESCAPE, EXTENSION};
use kit_bytes::{Octets, Text};
use std::alloc::{AllocError, AllocFailed, Global};
use thiserror::Error;

/// Why a text isn't written in the default alphabet.
#[derive(Clone, Copy, Debug, PartialEq, Eq, Error)]
pub enum CodeFault {
    /// The character with this index is the first that has no code.
    #[error("the character {index} has no code")]
    Outside { index: usize },
    #[error("out of memory")]
    OutOfMemory,
}

impl From<AllocFailed<u8>> for CodeFault {
    ghost from_gives = { λ _ fault. fault ≡ OutOfMemory };

    fn from(_: AllocFailed<u8>) -> Self {
        CodeFault::OutOfMemory
    }
}

/// The codes of a text, or the index of its first character that has none.
pub fn codes_of(alloc: Global, text: &Text) -> Result<Octets, CodeFault>
    ensures codes { SpellsText text.now result }
    ensures small { IfOk result (λ codes. All (λ code. code < 128) codes) }
{
    let mut codes = Vec::new(alloc);
    let mut index = 0;
    for char in text.as_str().chars() {
        if !push_char(&mut codes, char)? {
            return Err(CodeFault::Outside { index });
        }
        index += 1;
    }
    Ok(Octets::from(codes))
}

/// How many codes a character has.
pub fn code_count(char: char) -> usize
    ensures count { result ≡ length (char_codes char) }
    ensures few { result ≤ 2 }
{
    if code_of(char).is_some() {
        1
    } else if extension_code(char).is_some() {
        2
    } else {
        0
    }
}

/// Adds the codes of a character, and tells whether it has any.
pub fn push_char(codes: &mut Vec<u8>, char: char) -> Result<bool, AllocFailed<u8>>
    ensures added { IfOk result (λ _. codes.new.items ≡ codes.old.items ++ char_codes char) }
    ensures has { IfOk result (λ has. has ≡ has_codes char) }
{
    if let Some(code) = code_of(char) {
        codes.push(code)?;
        return Ok(true);
    }
    let Some(code) = extension_code(char) else {
        return Ok(false);
    };
    codes.push(ESCAPE)?;
    codes.push(code)?;
    Ok(true)
}

// The code at which the alphabet has a character. Most characters of ASCII stand at their own number.
fn code_of(char: char) -> Option<u8>
    ensures { result ≡ code_of char }
{
    let number = u32::from(char);
    if number == u32::from(ESCAPE) {
        return None;
    }
    if number < 128 && ALPHABET[number as usize] == char {
        return Some(number as u8);
    }
    let place = place_of(char)?;
    Some(place as u8)
}

// The place of a character in the alphabet.
fn place_of(char: char) -> Option<usize>
    ensures { result ≡ position (λ other. other == char) ALPHABET }
{
    ALPHABET.iter().position(|other| *other == char)
}

// The code at which the extension table has a character.
fn extension_code(char: char) -> Option<u8>
    ensures { result ≡ extension_code char }
{
    EXTENSION
        .iter()
        .find(|entry| entry.1 == char)
        .map(|entry| entry.0)
}

/// The text of codes. An escape before another code makes it one of the extension table, if it is
/// there; an escape before an escape, and a last one, is a space.
pub fn text_of_codes(alloc: Global, codes: &[u8]) -> Result<Text, AllocError>
    requires { All (λ code. code < 128) codes.now }
    ensures { IfOk result (λ text. text ≡ chars_of codes.now) }
{
    let mut text = String::new(alloc);
    let mut escaped = false;
    for code in codes {
        if escaped {
            text.push(extended_char(*code))?;
            escaped = false;
        } else if *code == ESCAPE {
            escaped = true;
        } else {
            text.push(ALPHABET[*code as usize])?;
        }
    }
    if escaped {
        text.push(' ')?;
    }
    Ok(Text::from(text))
}

// The character of a code behind the escape.
fn extended_char(code: u8) -> char
    requires { code < 128 }
    ensures { result ≡ extended_char code }
{
    if code == ESCAPE {
        return ' ';
    }
    extension_char(code).unwrap_or(ALPHABET[code as usize])
}

// The character that the extension table has for a code.
fn extension_char(code: u8) -> Option<char>
    ensures { result ≡ extension_char code }
{
    EXTENSION
        .iter()
        .find(|entry| entry.0 == code)
        .map(|entry| entry.1)
}
