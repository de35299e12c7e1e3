ghost use Rattle.std.specs.Prelude.{◌≡◌, ◌++◌, codes, decimal, string_bytes, encode_utf8_all, IfOk, OnOk};
ghost use Rattle.std.specs.Char.Escape.{escape_unicode};
ghost use Rattle.std.specs.List.{flat_map};
ghost use Rattle.std.specs.Option.{option_copied};
ghost use Rattle.print_text.specs.Texts.{escaped, escaped_text, hex_pair, ipv4_text, lower_hex_pair, pair_of, worded};

use itoa::Buffer;
use kit_bytes::{Octets, Text};
use std::alloc::{AllocError, Global};

/// A number with its word, where it has one.
#[tactic(auto, unfolding(crate::specs::Texts::worded))]
pub fn worded(alloc: Global, number: u64, word: Option<&str>) -> Result<Octets, AllocError>
    ensures { IfOk result (λ text. text ≡ worded number (option_copied word.entry)) }
{
    let mut text = Octets::new(alloc);
    push_worded(&mut text, number, word)?;
    Ok(text)
}

/// Adds a number with its word, where it has one.
#[tactic(auto, unfolding(crate::specs::Texts::worded))]
pub fn push_worded(text: &mut Octets, number: u64, word: Option<&str>) -> Result<(), AllocError>
    ensures { OnOk result (text.new ≡ text.old ++ worded number (option_copied word.entry)) }
{
    text.extend_from_slice(Buffer::new().format(number).as_bytes())?;
    if let Some(word) = word {
        text.extend_from_slices(b" (", word.as_bytes())?;
        text.extend_from_slice(b")")?;
    }
    Ok(())
}

/// Adds these words and a number behind them.
pub fn push_number(text: &mut Octets, front: &str, number: u64) -> Result<(), AllocError>
    ensures { OnOk result (text.new ≡ text.old ++ front.now ++ decimal number) }
{
    text.extend_from_slices(front.as_bytes(), Buffer::new().format(number).as_bytes())
}

/// The characters of a text: printable ASCII but the backslash stands as it is, and all others as
/// `\u{H}`.
pub fn escaped_text(alloc: Global, text: &Text) -> Result<String, AllocError>
    ensures { IfOk result (λ shown. string_bytes shown ≡ escaped_text text.now) }
{
    let mut shown = String::new(alloc);
    for char in text.as_str().chars() {
        push_escaped(&mut shown, char)?;
    }
    Ok(shown)
}

fn push_escaped(shown: &mut String, char: char) -> Result<(), AllocError>
    ensures { OnOk result (string_bytes shown.new ≡ string_bytes shown.old ++ encode_utf8_all (escaped char)) }
{
    match char {
        ' '..='~' if char != '\\' => shown.push(char),
        _ => push_unicode(shown, char),
    }
}

// Adds a character as `\u{H}`.
fn push_unicode(shown: &mut String, char: char) -> Result<(), AllocError>
    ensures { OnOk result (string_bytes shown.new ≡ string_bytes shown.old ++ encode_utf8_all (escape_unicode char)) }
{
    shown.extend(char.escape_unicode())?;
    Ok(())
}

/// The bytes of an IPv4 address in decimal, with dots between.
#[tactic(auto, unfolding(crate::specs::Texts::ipv4_text))]
pub fn ipv4_text(alloc: Global, address: &[u8]) -> Result<Octets, AllocError>
    ensures { IfOk result (λ text. text ≡ ipv4_text address.now) }
{
    let mut text = Octets::new(alloc);
    push_ipv4(&mut text, address)?;
    Ok(text)
}

/// Adds the bytes of an IPv4 address in decimal, with dots between.
#[tactic(auto, unfolding(crate::specs::Texts::ipv4_text))]
pub fn push_ipv4(text: &mut Octets, address: &[u8]) -> Result<(), AllocError>
    ensures { OnOk result (text.new ≡ text.old ++ ipv4_text address.now) }
{
    let [first, rest @ ..] = address else {
        return Ok(());
    };
    push_number(text, "", u64::from(*first))?;
    push_dotted(text, rest)?;
    Ok(())
}

// Adds bytes in decimal, with a dot in front of each.
fn push_dotted(text: &mut Octets, bytes: &[u8]) -> Result<(), AllocError>
    ensures { OnOk result (text.new ≡ text.old ++ flat_map (λ next. codes "." ++ decimal next) bytes.now) }
{
    for byte in bytes {
        push_number(text, ".", u64::from(*byte))?;
    }
    Ok(())
}

/// Bytes in hexadecimal.
pub fn hex_text(alloc: Global, bytes: &[u8]) -> Result<Octets, AllocError>
    ensures { IfOk result (λ text. text ≡ flat_map hex_pair bytes.now) }
{
    let mut text = Octets::new(alloc);
    push_hex(&mut text, bytes)?;
    Ok(text)
}

/// Adds bytes in hexadecimal.
pub fn push_hex(text: &mut Octets, bytes: &[u8]) -> Result<(), AllocError>
    ensures { OnOk result (text.new ≡ text.old ++ flat_map hex_pair bytes.now) }
{
    for byte in bytes {
        text.extend_from_slice(&hex_pair(*byte))?;
    }
    Ok(())
}

/// A byte as two hexadecimal digits in upper case.
pub fn hex_pair(byte: u8) -> [u8; 2]
    ensures { result ≡ hex_pair byte }
{
    pair_of(b"0123456789ABCDEF", byte)
}

/// A byte as two hexadecimal digits in lower case.
pub fn lower_hex_pair(byte: u8) -> [u8; 2]
    ensures { result ≡ lower_hex_pair byte }
{
    pair_of(b"0123456789abcdef", byte)
}

// A byte as two of sixteen digits.
fn pair_of(digits: &[u8; 16], byte: u8) -> [u8; 2]
    ensures { result ≡ pair_of digits.now byte }
{
    let high = digits[usize::from(byte / 16)];
    let low = digits[usize::from(byte % 16)];
    [high, low]
}
