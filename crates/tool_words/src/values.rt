ghost use Rattle.std.specs.Prelude.{◌≡◌, ◌≤◌, IfOk, IfSome, MatchOption, None, Some, option_map};
ghost use Rattle.std.specs.Char.{is_ascii_digit};
ghost use Rattle.std.specs.List.{list_all};
ghost use Rattle.std.specs.Str.{chars, encode_utf8_all};
ghost use Rattle.tool_words.specs.Values.{Gives, flag_of, is_decimal, kind_named, kind_or, number_32_in, number_8_in, number_in, number_or, number_within, octets_in, path_in, path_or, short_in, split_at, optional, turns_in};

use crate::{UsageKind, WordFault};
use hex::FromHexError;
use kit_bytes::{Kind, Octets, PathText, ShortOctets, ShortText, Text};
use std::alloc::{AllocError, Global};

/// A value that reads, or the fault that it doesn't.
pub fn or_fault<T: Drop>(value: Option<T>) -> Result<T, WordFault>
    ensures { Gives value result }
{
    match value {
        Some(value) => Ok(value),
        None => Err(WordFault::Usage(UsageKind::Value)),
    }
}

/// Whether an option is given, or the fault that it is beside a command that hasn't it.
pub fn flag_of(given: bool, has: bool) -> Result<bool, WordFault>
    ensures { Gives (flag_of given has) result }
{
    if given && !has {
        return Err(WordFault::Usage(UsageKind::Value));
    }
    Ok(given)
}

fn are_digits(bytes: &[u8]) -> bool
    ensures { result ≡ list_all is_ascii_digit bytes.now }
{
    for byte in bytes {
        if !byte.is_ascii_digit() {
            return false;
        }
    }
    true
}

fn is_decimal(text: &str) -> bool
    ensures { result ≡ is_decimal text.now }
{
    let digits = text.as_bytes();
    if digits.is_empty() || (digits.len() != 1 && digits[0] == b'0') {
        return false;
    }
    are_digits(digits)
}

#[tactic(auto, using(crate::proofs::Numbers::decimal_reads, crate::proofs::Numbers::not_decimal))]
fn number(text: &str) -> Option<u64>
    ensures { result ≡ number_in text.now }
{
    if !is_decimal(text) {
        return None;
    }
    text.parse::<u64>().ok()
}

/// The number that the text spells, if it is within these limits.
#[tactic(auto, unfolding(crate::specs::Values::number_within))]
pub fn number_within(least: u64, most: u64, text: &str) -> Option<u64>
    ensures value { result ≡ number_within least most text.now }
    ensures range { IfSome result (λ number. number ≤ most) }
{
    let number = number(text)?;
    if least <= number && number <= most {
        Some(number)
    } else {
        None
    }
}

/// The number of 8 bits that the text spells.
pub fn number_8(text: &str) -> Option<u8>
    ensures { result ≡ number_8_in text.now }
{
    let number = number_within(0, 0xFF, text)?;
    Some(number as u8)
}

/// The number of 32 bits that the text spells.
pub fn number_32(text: &str) -> Option<u32>
    ensures { result ≡ number_32_in text.now }
{
    let number = number_within(0, 0xFFFF_FFFF, text)?;
    Some(number as u32)
}

/// The number that the text spells within these limits, or the default where there is no text.
#[tactic(auto, unfolding(crate::specs::Values::number_or))]
pub fn number_or(default: u64, least: u64, most: u64, text: Option<&str>) -> Result<u64, WordFault>
    requires { default ≤ most }
    ensures value { Gives (number_or default least most (option_map (λ t. t.now) text.entry)) result }
    ensures range { IfOk result (λ number. number ≤ most) }
{
    match text {
        Some(text) => or_fault(number_within(least, most, text)),
        None => Ok(default),
    }
}

/// After how many events the program ends, or the most there may be where there is no text.
pub fn turns(text: Option<&str>) -> Result<u64, WordFault>
    ensures { Gives (turns_in (option_map (λ t. t.now) text.entry)) result }
{
    number_or(1_000_000_000_000, 0, 1_000_000_000_000, text)
}

#[tactic(auto, unfolding(crate::specs::Values::kind_named))]
fn kind_named(name: &str) -> Option<Kind>
    ensures { result ≡ kind_named name.now }
{
    if name == "qmi" {
        Some(Kind::Qmi)
    } else if name == "mbim" {
        Some(Kind::Mbim)
    } else {
        None
    }
}

/// The kind of modem that the text names, or the default where there is no text.
#[tactic(auto, unfolding(crate::specs::Values::kind_or))]
pub fn kind_or(default: Kind, text: Option<&str>) -> Result<Kind, WordFault>
    ensures { Gives (kind_or default (option_map (λ t. t.now) text.entry)) result }
{
    match text {
        Some(text) => or_fault(kind_named(text)),
        None => Ok(default),
    }
}

/// A copy of the text.
pub fn text_of(alloc: Global, text: &str) -> Result<Text, AllocError>
    ensures chars { IfOk result (λ copy. copy ≡ chars text.now) }
    ensures bytes { IfOk result (λ copy. encode_utf8_all copy ≡ text.now) }
{
    let copy = Text::from_str(alloc, text)?;
    Ok(copy)
}

/// The path that the text spells.
#[tactic(auto, unfolding(crate::specs::Values::path_in))]
pub fn path(alloc: Global, text: &str) -> Result<PathText, WordFault>
    ensures { Gives (path_in text.now) result }
{
    if text.is_empty() {
        return Err(WordFault::Usage(UsageKind::Value));
    }
    or_fault(PathText::of(text_of(alloc, text)?))
}

/// The path that the text spells, or the default where there is no text.
#[tactic(auto, unfolding(crate::specs::Values::path_or))]
pub fn path_or(alloc: Global, default: &str, text: Option<&str>) -> Result<PathText, WordFault>
    ensures { Gives (path_or default.now (option_map (λ t. t.now) text.entry)) result }
{
    path(alloc, text.unwrap_or(default))
}

/// The path that the text spells, if there is one.
pub fn path_if_given(alloc: Global, text: Option<&str>) -> Result<Option<PathText>, WordFault>
    ensures { Gives (optional path_in (option_map (λ t. t.now) text.entry)) result }
{
    let Some(text) = text else {
        return Ok(None);
    };
    let path = path(alloc, text)?;
    Ok(Some(path))
}

/// The text of a request.
#[tactic(auto, unfolding(crate::specs::Values::short_in))]
pub fn short(alloc: Global, text: &str) -> Result<ShortText, WordFault>
    ensures { Gives (short_in text.now) result }
{
    or_fault(ShortText::of(text_of(alloc, text)?))
}

/// The text of a request, if there is one.
pub fn short_if_given(alloc: Global, text: Option<&str>) -> Result<Option<ShortText>, WordFault>
    ensures { Gives (optional short_in (option_map (λ t. t.now) text.entry)) result }
{
    let Some(text) = text else {
        return Ok(None);
    };
    let short = short(alloc, text)?;
    Ok(Some(short))
}

/// The texts before and behind the first comma.
pub fn at_comma(text: &str) -> Option<(&str, &str)>
    ensures { MatchOption result (split_at 44 text.now ≡ None) (λ pair. split_at 44 text.now ≡ Some (pair.0.now, pair.1.now)) }
{
    text.split_once(',')
}

/// The bytes that the text spells as pairs of hexadecimal digits.
#[tactic(auto, unfolding(crate::specs::Values::octets_in))]
pub fn octets(alloc: Global, text: &str) -> Result<ShortOctets, WordFault>
    ensures { Gives (octets_in text.now) result }
{
    match hex::decode(alloc, text) {
        Ok(bytes) => or_fault(ShortOctets::of(Octets::from(bytes))),
        Err(FromHexError::OutOfMemory) => Err(WordFault::OutOfMemory),
        Err(_) => Err(WordFault::Usage(UsageKind::Value)),
    }
}
