ghost use Rattle.std.specs.Prelude.{◌≡◌, ◌++◌, ◌≤◌, ◌<◌, ◌∷◌, [], false, length, All, OnOk, IfOk};
ghost use Rattle.gsm_text.specs.Alphabet.{codes_of};
ghost use Rattle.sms_pdu.specs.Parts as parts;

use gsm_text::{pack, push_char};
use std::alloc::{AllocError, Global};

/// Adds the length of user data, and the data: a header, and a piece of a text.
pub(crate) fn push_data(
    octets: &mut Vec<u8>,
    alloc: Global,
    coded: bool,
    header: &[u8],
    piece: &[char],
) -> Result<(), AllocError>
    requires header { length header.now ≤ 6 }
    requires piece { length (parts.units_of coded piece.now) ≤ parts.alone coded }
    ensures { OnOk result (octets.new.items ≡ octets.old.items ++ parts.data_of coded header.now piece.now) }
{
    if coded {
        push_coded(octets, alloc, header, piece)
    } else {
        push_ucs2(octets, alloc, header, piece)
    }
}

fn push_coded(
    octets: &mut Vec<u8>,
    alloc: Global,
    header: &[u8],
    piece: &[char],
) -> Result<(), AllocError>
    requires header { length header.now ≤ 6 }
    requires piece { length (codes_of piece.now) ≤ 160 }
    ensures { OnOk result (octets.new.items ≡ octets.old.items ++ parts.coded_data header.now piece.now) }
{
    let codes = codes_of_chars(alloc, piece)?;
    let behind = (8 * header.len() + 6) / 7;
    let fill = 7 * behind - 8 * header.len();
    octets.extend_from_slice(&[(behind + codes.len()) as u8])?;
    octets.extend_from_slice(header)?;
    let packed = pack(alloc, &codes, fill as u8)?;
    octets.extend_from_slice(packed.as_slice())
}

// The codes of characters.
fn codes_of_chars(alloc: Global, chars: &[char]) -> Result<Vec<u8>, AllocError>
    ensures codes { IfOk result (λ codes. codes.items ≡ codes_of chars.now) }
    ensures small { IfOk result (λ codes. All (λ code. code < 128) codes.items) }
{
    let mut codes = Vec::with_capacity(alloc, chars.len())?;
    for char in chars {
        push_char(&mut codes, *char)?;
    }
    Ok(codes)
}

fn push_ucs2(
    octets: &mut Vec<u8>,
    alloc: Global,
    header: &[u8],
    piece: &[char],
) -> Result<(), AllocError>
    requires header { length header.now ≤ 6 }
    requires piece { length (parts.units_of false piece.now) ≤ 70 }
    ensures { OnOk result (octets.new.items ≡ octets.old.items ++ parts.ucs2_data header.now piece.now) }
{
    let units = ucs2(alloc, piece)?;
    octets.extend_from_slice(&[(header.len() + units.len()) as u8])?;
    octets.extend_from_slice(header)?;
    octets.extend_from_slice(&units)
}

// The units of characters, the high octet of each first.
fn ucs2(alloc: Global, chars: &[char]) -> Result<Vec<u8>, AllocError>
    ensures { IfOk result (λ units. units.items ≡ parts.ucs2 chars.now) }
{
    let mut octets = Vec::with_capacity(alloc, 2 * chars.len())?;
    for char in chars {
        push_units(&mut octets, *char)?;
    }
    Ok(octets)
}

// Adds the units of a character.
fn push_units(octets: &mut Vec<u8>, char: char) -> Result<(), AllocError>
    ensures { OnOk result (octets.new.items ≡ octets.old.items ++ parts.ucs2 (char ∷ [])) }
{
    let mut pair = [0; 2];
    let units = char.encode_utf16(&mut pair);
    for unit in units.iter() {
        octets.extend_from_slice(&unit.to_be_bytes())?;
    }
    Ok(())
}
