ghost use Rattle.std.specs.Prelude.{◌≡◌, Option, option_map, IfOk};
ghost use Rattle.serde_json.specs.Data.{Data};
ghost use Rattle.serde_json.specs.View.{view, items_view};
ghost use Rattle.modem_profile.specs.Values.{few_values, short_list, pdu, pdus, phonebook_text, phonebook_entry, phonebook_entries};

use crate::copies::text_of;
use crate::{PhonebookEntry, is_phonebook_text};
use hex::FromHexError;
use kit_bytes::{Octets, Text};
use serde_json::Value;
use std::alloc::{AllocError, Global};

/// How many values a list has at most.
const MOST_VALUES: usize = 100;

/// How many bytes a message has at most.
const LONGEST_PDU: usize = 255;

// The values of a list that isn't too long.
#[tactic(auto, using(crate::proofs::Continued::counts))]
fn few_values(value: &Value) -> Option<&[Value]>
    ensures { option_map (λ values. items_view values.now) result ≡ few_values (view value.now) }
{
    let values = value.as_array()?.as_slice();
    if values.len() <= MOST_VALUES {
        Some(values)
    } else {
        None
    }
}

/// What the values of a list give.
trait Listed: Sized + Drop {
    /// What a value gives, if it gives something.
    ghost read: { Data → Option Self };

    fn read(alloc: Global, value: &Value) -> Result<Option<Self>, AllocError>
        ensures { IfOk result (λ item. item ≡ read (view value.now)) };
}

impl Listed for Octets {
    ghost use Rattle.modem_profile.specs.Values.{pdu};

    ghost read = { pdu };

    fn read(alloc: Global, value: &Value) -> Result<Option<Self>, AllocError> {
        pdu(alloc, value)
    }
}

impl Listed for PhonebookEntry {
    ghost use Rattle.modem_profile.specs.Values.{phonebook_entry};

    ghost read = { phonebook_entry };

    fn read(alloc: Global, value: &Value) -> Result<Option<Self>, AllocError> {
        phonebook_entry(alloc, value)
    }
}

// What the values of a list that isn't too long give, if each gives something.
fn short_list<T: Listed>(alloc: Global, value: &Value) -> Result<Option<Vec<T>>, AllocError>
    ensures { IfOk result (λ list. option_map (λ v. v.items) list ≡ short_list T.read (view value.now)) }
{
    let Some(values) = few_values(value) else {
        return Ok(None);
    };
    let mut list = Vec::new(alloc);
    for value in values {
        let Some(item) = T::read(alloc, value)? else {
            return Ok(None);
        };
        list.push(item)?;
    }
    Ok(Some(list))
}

/// The messages that a value lists.
#[tactic(auto, unfolding(crate::specs::Values::pdus))]
pub(crate) fn pdus(alloc: Global, value: &Value) -> Result<Option<Vec<Octets>>, AllocError>
    ensures { IfOk result (λ list. option_map (λ v. v.items) list ≡ pdus (view value.now)) }
{
    short_list(alloc, value)
}

// The bytes that a value's pairs of hexadecimal digits spell.
#[tactic(auto, unfolding(crate::specs::Values::pdu))]
fn pdu(alloc: Global, value: &Value) -> Result<Option<Octets>, AllocError>
    ensures { IfOk result (λ octets. octets ≡ pdu (view value.now)) }
{
    let Some(text) = value.as_str() else {
        return Ok(None);
    };
    match hex::decode(alloc, text) {
        Ok(bytes) if bytes.len() <= LONGEST_PDU => Ok(Some(Octets::from(bytes))),
        Err(FromHexError::OutOfMemory) => Err(AllocError),
        _ => Ok(None),
    }
}

/// The entries of a phone book that a value lists.
#[tactic(auto, unfolding(crate::specs::Values::phonebook_entries))]
pub(crate) fn phonebook_entries(
    alloc: Global,
    value: &Value,
) -> Result<Option<Vec<PhonebookEntry>>, AllocError>
    ensures { IfOk result (λ list. option_map (λ v. v.items) list ≡ phonebook_entries (view value.now)) }
{
    short_list(alloc, value)
}

// The entry that an object's `number` and `name` make.
#[tactic(auto, unfolding(crate::specs::Values::phonebook_entry))]
fn phonebook_entry(alloc: Global, value: &Value) -> Result<Option<PhonebookEntry>, AllocError>
    ensures { IfOk result (λ entry. entry ≡ phonebook_entry (view value.now)) }
{
    let (Some(number), Some(name)) = (value.get("number"), value.get("name")) else {
        return Ok(None);
    };
    let Some(number) = phonebook_text(alloc, number)? else {
        return Ok(None);
    };
    let Some(name) = phonebook_text(alloc, name)? else {
        return Ok(None);
    };
    Ok(Some(PhonebookEntry { number, name }))
}

// The text that a value is, where a phone book takes it.
#[tactic(auto, unfolding(crate::specs::Values::phonebook_text))]
fn phonebook_text(alloc: Global, value: &Value) -> Result<Option<Text>, AllocError>
    ensures { IfOk result (λ text. text ≡ phonebook_text (view value.now)) }
{
    let Some(text) = value.as_str() else {
        return Ok(None);
    };
    let text = text_of(alloc, text)?;
    if is_phonebook_text(&text) {
        Ok(Some(text))
    } else {
        Ok(None)
    }
}
