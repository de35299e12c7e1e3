ghost use Rattle.std.specs.Prelude.{◌≡◌, ◌++◌, map, OnOk};
ghost use Rattle.std.specs.List.{flat_map};
ghost use Rattle.qmi_values.specs.View.{val_view};
ghost use Rattle.qmicli_print.specs.Texts.{address_text, escaped, hex_of, number_text};

use crate::shown::{Shown, word};
use kit_bytes::Octets;
use print_text::{Wording, hex_pair, push_ipv4, push_worded};
use qmi_values::Val;
use std::alloc::AllocError;

/// Adds a number as it is shown.
pub fn push_number(
    text: &mut Octets,
    wording: Wording,
    shown: Shown,
    number: u64,
) -> Result<(), AllocError>
    ensures { OnOk result (text.new ≡ text.old ++ number_text wording shown number) }
{
    if shown.is_address() {
        return push_address(text, number);
    }
    push_worded(text, number, wording.shown(word(shown, number)))
}

/// Adds a number as an IPv4 address, the top byte first.
#[tactic(auto, unfolding(crate::specs::Texts::address_text))]
pub fn push_address(text: &mut Octets, number: u64) -> Result<(), AllocError>
    ensures { OnOk result (text.new ≡ text.old ++ address_text number) }
{
    let address = [
        (number / 16_777_216 % 256) as u8,
        (number / 65_536 % 256) as u8,
        (number / 256 % 256) as u8,
        (number % 256) as u8,
    ];
    push_ipv4(text, &address)
}

/// Adds the bytes of a text: printable ASCII but the backslash stands as it is, and all other bytes in
/// hexadecimal.
pub fn push_escaped(text: &mut Octets, octets: &[u8]) -> Result<(), AllocError>
    ensures { OnOk result (text.new ≡ text.old ++ flat_map escaped octets.now) }
{
    for byte in octets {
        push_escaped_byte(text, *byte)?;
    }
    Ok(())
}

fn push_escaped_byte(text: &mut Octets, byte: u8) -> Result<(), AllocError>
    ensures { OnOk result (text.new ≡ text.old ++ escaped byte) }
{
    match byte {
        b' '..=b'~' if byte != b'\\' => text.extend_from_slice(&[byte]),
        _ => text.extend_from_slices(b"\\x", &hex_pair(byte)),
    }
}

/// Adds a list of bytes in hexadecimal.
pub fn push_hex(text: &mut Octets, vals: &[Val]) -> Result<(), AllocError>
    ensures { OnOk result (text.new ≡ text.old ++ flat_map hex_of (map val_view vals.now)) }
{
    for val in vals {
        push_hex_byte(text, val)?;
    }
    Ok(())
}

fn push_hex_byte(text: &mut Octets, val: &Val) -> Result<(), AllocError>
    ensures { OnOk result (text.new ≡ text.old ++ hex_of (val_view val.now)) }
{
    if let Some(number) = val.as_u64() {
        text.extend_from_slice(&hex_pair((number % 256) as u8))?;
    }
    Ok(())
}
