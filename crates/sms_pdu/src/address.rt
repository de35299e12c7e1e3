ghost use Rattle.std.specs.Prelude.{◌≡◌, ◌+◌, ◌*◌, ◌/◌, ◌++◌, ◌≤◌, ◌<◌, length, take, slice_index, IfOk, OnOk};
ghost use Rattle.gsm_text.specs.Alphabet.{chars_of};
ghost use Rattle.gsm_text.specs.Packing.{unpack};
ghost use Rattle.sms_pdu.specs.Address as addresses;

use crate::fields::octet;
use crate::texts::text_of;
use gsm_text::{text_of_codes, unpack};
use kit_bytes::Text;
use std::alloc::{AllocError, Global};

/// The characters of half octets below 15.
pub const DIGITS: [char; 15] = [
    '0', '1', '2', '3', '4', '5', '6', '7', '8', '9', '*', '#', 'a', 'b', 'c',
];

/// The text of an address of so many half octets.
pub(crate) fn address_text(
    alloc: Global,
    count: u8,
    kind: u8,
    octets: &[u8],
) -> Result<Text, AllocError>
    requires { (count + 1) / 2 ≤ length octets.now }
    ensures { IfOk result (λ text. text ≡ addresses.address_text count kind octets.now) }
{
    let form = kind / 16 % 8;
    if form == 5 {
        return coded_text(alloc, usize::from(count) * 4 / 7, octets);
    }
    let mut chars = Vec::new(alloc);
    if form == 1 {
        chars.extend_from_slice(&['+'])?;
    }
    push_digits(&mut chars, count, octets)?;
    text_of(alloc, &chars)
}

// The text of so many packed codes.
fn coded_text(alloc: Global, count: usize, octets: &[u8]) -> Result<Text, AllocError>
    requires few { count ≤ 255 }
    requires there { 7 * count ≤ 8 * length octets.now }
    ensures { IfOk result (λ text. text ≡ chars_of (unpack octets.now 0 count)) }
{
    let Ok(codes) = unpack(alloc, octets, 0, count) else {
        return Err(AllocError);
    };
    text_of_codes(alloc, codes.as_slice())
}

// Adds the digits of so many half octets.
fn push_digits(chars: &mut Vec<char>, count: u8, octets: &[u8]) -> Result<(), AllocError>
    requires { (count + 1) / 2 ≤ length octets.now }
    ensures { OnOk result (chars.new.items ≡ chars.old.items ++ addresses.digits (take count (addresses.half_octets octets.now))) }
{
    for k in 0..count {
        let half = half_octet(octets, k);
        if half < 15 {
            chars.extend_from_slice(&[DIGITS[half as usize]])?;
        }
    }
    Ok(())
}

// The half octet with this index, the low one of an octet first.
fn half_octet(octets: &[u8], index: u8) -> u8
    ensures { result ≡ slice_index (addresses.half_octets octets.now) index }
{
    let both = octet(octets, (index / 2) as usize);
    if index % 2 == 0 { both % 16 } else { both / 16 }
}
