ghost use Rattle.std.specs.Prelude.{◌≡◌, ◌≤◌, ◌*◌, length, drop, IfOk};
ghost use Rattle.gsm_text.specs.Alphabet.{chars_of};
ghost use Rattle.gsm_text.specs.Packing.{unpack};
ghost use Rattle.sms_pdu.specs.Coding as codings;
ghost use Rattle.sms_pdu.specs.Reading as readings;

use crate::Body;
use crate::coding::{has_codes, has_ucs2};
use gsm_text::{text_of_codes, unpack};
use kit_bytes::{Octets, Text, Utf16Fault, text_from_utf16};
use std::alloc::{AllocError, Global};

/// What user data of so many codes or octets say, behind a header.
pub(crate) fn body_text(
    alloc: Global,
    coding: u8,
    count: u8,
    header: usize,
    octets: &[u8],
) -> Result<Body, AllocError>
    requires whole { length octets.now ≡ codings.octets_of coding count }
    requires header { header ≤ length octets.now }
    ensures { IfOk result (λ body. body ≡ readings.body_text coding count header octets.now) }
{
    if has_codes(coding) {
        let text = coded_body(alloc, count, header, octets)?;
        return Ok(Body::Written(text));
    }
    let behind = &octets[header..];
    if has_ucs2(coding) {
        return ucs2_body(alloc, behind);
    }
    let octets = Octets::from_slice(alloc, behind)?;
    Ok(Body::Raw(octets))
}

// The text of so many codes without those that a header takes.
fn coded_body(alloc: Global, count: u8, header: usize, octets: &[u8]) -> Result<Text, AllocError>
    requires whole { 7 * count ≤ 8 * length octets.now }
    requires header { header ≤ 256 }
    ensures { IfOk result (λ text. text ≡ chars_of (drop (readings.codes_behind header) (unpack octets.now 0 count))) }
{
    let Ok(codes) = unpack(alloc, octets, 0, usize::from(count)) else {
        return Err(AllocError);
    };
    text_of_codes(alloc, behind(codes.as_slice(), (8 * header + 6) / 7))
}

// The codes behind so many, if there are more.
fn behind(codes: &[u8], count: usize) -> &[u8]
    ensures { result.now ≡ drop count codes.now }
{
    &codes[count.min(codes.len())..]
}

// A text in UTF-16, the high octet first, and where it is none, the octets.
fn ucs2_body(alloc: Global, octets: &[u8]) -> Result<Body, AllocError>
    ensures { IfOk result (λ body. body ≡ readings.ucs2_body octets.now) }
{
    let swapped = swapped(alloc, octets)?;
    match text_from_utf16(alloc, swapped.as_slice()) {
        Ok(text) => Ok(Body::Written(text)),
        Err(Utf16Fault::Lone { .. }) => {
            let octets = Octets::from_slice(alloc, octets)?;
            Ok(Body::Raw(octets))
        }
        Err(Utf16Fault::OutOfMemory) => Err(AllocError),
    }
}

// The octets with each two in the other order.
fn swapped(alloc: Global, octets: &[u8]) -> Result<Octets, AllocError>
    ensures { IfOk result (λ swapped. swapped ≡ readings.swapped octets.now) }
{
    let mut swapped = Octets::new(alloc);
    let mut left = octets;
    while let [high, low, rest @ ..] = left {
        swapped.extend_from_slice(&[*low, *high])?;
        left = rest;
    }
    swapped.extend_from_slice(left)?;
    Ok(swapped)
}
