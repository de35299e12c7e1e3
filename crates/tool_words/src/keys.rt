ghost use Rattle.std.specs.Prelude.{◌≡◌, ◌==◌, IfOk, Some, None, MatchOption, is_some, map, option_map};
ghost use Rattle.std.specs.List.{filter_map, list_all, slice_split};
ghost use Rattle.tool_words.specs.Keys.{is_among, keyed, parts_in, value_in, value_of};
ghost use Rattle.tool_words.specs.Sole.{map_sole, sole};
ghost use Rattle.tool_words.specs.Values.{Gives, short_in, split_at};

use crate::WordFault;
use crate::sole::{Sole, and_if, at_most_one};
use crate::values::{or_fault, short_if_given};
use kit_bytes::ShortText;
use std::alloc::{AllocError, Global};

/// The parts of a list of keys and values, as in `apn=internet,ip-type=4`, if each has a key of these
/// names.
#[tactic(auto, unfolding(crate::specs::Keys::parts_in))]
pub fn parts_in<'a>(
    alloc: Global,
    names: &[&str],
    text: &'a str,
) -> Result<Option<Vec<&'a str>>, AllocError>
    ensures { IfOk result (λ parts. option_map (λ parts. map (λ part. part.now) parts.items) parts ≡ parts_in (map (λ name. name.now) names.now) text.entry.now) }
{
    let parts = parts(alloc, text)?;
    if have_keys(names, &parts) {
        Ok(Some(parts))
    } else {
        Ok(None)
    }
}

fn parts<'a>(alloc: Global, text: &'a str) -> Result<Vec<&'a str>, AllocError>
    ensures { IfOk result (λ parts. map (λ part. part.now) parts.items ≡ slice_split (λ byte. byte == 44) text.entry.now) }
{
    text.split(',').collect(alloc)
}

fn have_keys(names: &[&str], parts: &[&str]) -> bool
    ensures { result ≡ list_all (λ part. is_some (value_in (map (λ name. name.now) names.now) part)) (map (λ part. part.now) parts.now) }
{
    for part in parts {
        if value_in(names, part).is_none() {
            return false;
        }
    }
    true
}

/// The value of a key of these names, or `None` where several parts of a list have it.
#[tactic(auto, unfolding(crate::specs::Keys::value_of))]
pub fn value_of<'a>(names: &[&str], parts: &[&'a str]) -> Option<Option<&'a str>>
    ensures { option_map (option_map (λ value. value.now)) result ≡ value_of (map (λ name. name.now) names.now) (map (λ part. part.now) parts.entry.now) }
{
    at_most_one(sole_value(names, parts))
}

/// The text that such a key has, if a part has it.
#[tactic(auto, unfolding(crate::specs::Keys::keyed))]
pub fn text_of_key(
    alloc: Global,
    names: &[&str],
    parts: &[&str],
) -> Result<Option<ShortText>, WordFault>
    ensures { Gives (keyed short_in (map (λ name. name.now) names.now) (map (λ part. part.now) parts.now)) result }
{
    short_if_given(alloc, or_fault(value_of(names, parts))?)
}

fn sole_value<'a>(names: &[&str], parts: &[&'a str]) -> Sole<&'a str>
    ensures { map_sole (λ value. value.now) result ≡ sole (filter_map (value_in (map (λ name. name.now) names.now)) (map (λ part. part.now) parts.entry.now)) }
{
    let mut sole = Sole::Nothing;
    for part in parts {
        sole = and_if(sole, value_in(names, part));
    }
    sole
}

#[tactic(auto, unfolding(crate::specs::Keys::value_in))]
fn value_in<'a>(names: &[&str], part: &'a str) -> Option<&'a str>
    ensures { option_map (λ value. value.now) result ≡ value_in (map (λ name. name.now) names.now) part.entry.now }
{
    let (key, value) = key_and_value(part)?;
    if is_among(names, key) {
        Some(value)
    } else {
        None
    }
}

fn key_and_value(part: &str) -> Option<(&str, &str)>
    ensures { MatchOption result (split_at 61 part.now ≡ None) (λ pair. split_at 61 part.now ≡ Some (pair.0.now, pair.1.now)) }
{
    part.split_once('=')
}

fn is_among(names: &[&str], text: &str) -> bool
    ensures { result ≡ is_among (map (λ name. name.now) names.now) text.now }
{
    for name in names {
        if text == *name {
            return true;
        }
    }
    false
}
