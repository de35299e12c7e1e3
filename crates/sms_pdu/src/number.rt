ghost use Rattle.std.specs.Prelude.{◌≡◌, ◌++◌, ◌≤◌, length, map, OnOk};
ghost use Rattle.std.specs.List.{list_all};
ghost use Rattle.sms_pdu.specs.Parts as parts;

use std::alloc::AllocError;

// The digits of a number, without its plus.
fn digits_of(number: &[char]) -> &[char]
    ensures { result.now ≡ parts.digits_of number.now }
{
    if is_international(number) {
        &number[1..]
    } else {
        number
    }
}

fn is_international(number: &[char]) -> bool
    ensures { result ≡ parts.is_international number.now }
{
    match number {
        [char, ..] => *char == '+',
        _ => false,
    }
}

/// Whether it is 1 to 20 digits, with at most one `+` before them.
pub(crate) fn is_number(number: &[char]) -> bool
    ensures { result ≡ parts.is_number number.now }
{
    let digits = digits_of(number);
    are_digits(digits) && 1 <= digits.len() && digits.len() <= 20
}

fn are_digits(chars: &[char]) -> bool
    ensures { result ≡ list_all parts.is_digit chars.now }
{
    chars.iter().all(|char| '0' <= *char && *char <= '9')
}

/// Adds the address of a number.
pub(crate) fn push_address(octets: &mut Vec<u8>, number: &[char]) -> Result<(), AllocError>
    requires { length (parts.digits_of number.now) ≤ 20 }
    ensures { OnOk result (octets.new.items ≡ octets.old.items ++ parts.address number.now) }
{
    let digits = digits_of(number);
    let kind = if is_international(number) { 0x91 } else { 0x81 };
    octets.extend_from_slice(&[digits.len() as u8, kind])?;
    push_semi_octets(octets, digits)
}

// Adds the half octets of digits, two in an octet.
fn push_semi_octets(octets: &mut Vec<u8>, digits: &[char]) -> Result<(), AllocError>
    ensures { OnOk result (octets.new.items ≡ octets.old.items ++ parts.semi_octets (map parts.half digits.now)) }
{
    let mut left = digits;
    while let [low, high, rest @ ..] = left {
        octets.extend_from_slice(&[half(*low) + 16 * half(*high)])?;
        left = rest;
    }
    if let [low] = left {
        octets.extend_from_slice(&[half(*low) + 16 * 15])?;
    }
    Ok(())
}

// The half octet of a digit.
fn half(digit: char) -> u8
    ensures half { result ≡ parts.half digit }
    ensures small { result ≤ 15 }
{
    (u32::from(digit).saturating_sub(48) % 16) as u8
}
