//! What the values of a buffer's fields say, by the places of the fields, and values of answers.

ghost use Rattle.std.specs.Prelude.{◌≡◌, [], map, IfOk};
ghost use Rattle.mbim_fields.specs.Value as field;
ghost use Rattle.mbim_fields.specs.View.{value_view};
ghost use Rattle.mbim_services.specs.Requests.{no_text, no_elements};
ghost use Rattle.sim_mbim.specs.Values as spec;

use kit_bytes::{Octets, Text};
use mbim_fields::{FieldVal, FieldValue};
use std::alloc::{AllocError, Global};
use uuid::Uuid;

// ---- of a command; what is no such value is 0 or empty ----

pub(crate) fn number_of(value: &FieldValue) -> u64
    ensures { result ≡ spec.number_of (value_view value.now) }
{
    value.as_number().unwrap_or(0)
}

pub(crate) fn number_at(values: &[FieldValue], place: usize) -> u64
    ensures { result ≡ spec.number_at (map value_view values.now) place }
{
    match values.get(place) {
        Some(value) => number_of(value),
        None => 0,
    }
}

pub(crate) fn octets_at(
    alloc: Global,
    values: &[FieldValue],
    place: usize,
) -> Result<Octets, AllocError>
    ensures { IfOk result (λ octets. octets ≡ spec.octets_at (map value_view values.now) place) }
{
    match values.get(place) {
        Some(FieldValue::Octets(octets)) => Octets::from_slice(alloc, octets.as_slice()),
        _ => Ok(Octets::new(alloc)),
    }
}

pub(crate) fn text_at(
    alloc: Global,
    values: &[FieldValue],
    place: usize,
) -> Result<Text, AllocError>
    ensures { IfOk result (λ text. text ≡ spec.text_at (map value_view values.now) place) }
{
    match values.get(place) {
        Some(FieldValue::Text(text)) => copy(alloc, text),
        _ => Ok(empty(alloc)),
    }
}

fn copy(alloc: Global, text: &Text) -> Result<Text, AllocError>
    ensures { IfOk result (λ copy. copy ≡ text.now) }
{
    Ok(Text::from_str(alloc, text.as_str())?)
}

fn empty(alloc: Global) -> Text
    ensures { result ≡ [] }
{
    Text::from(String::new(alloc))
}

// ---- of an answer ----

pub(crate) fn number(number: u64) -> FieldValue
    ensures { value_view result ≡ field.number number }
{
    FieldValue::Number(number)
}

pub(crate) fn zero() -> FieldValue
    ensures { value_view result ≡ spec.zero }
{
    FieldValue::Number(0)
}

// So many fields that say nothing.
pub(crate) fn zeros(alloc: Global, count: usize) -> Result<Vec<FieldValue>, AllocError>
    ensures { IfOk result (λ values. map value_view values.items ≡ spec.zeros count) }
{
    let mut values = Vec::new(alloc);
    for _ in 0..count {
        values.push(zero())?;
    }
    Ok(values)
}

pub(crate) fn uuid(uuid: Uuid) -> FieldValue
    ensures { value_view result ≡ field.uuid_of uuid }
{
    FieldValue::Uuid(uuid)
}

pub(crate) fn absent() -> FieldValue
    ensures { value_view result ≡ field.absent }
{
    FieldValue::Absent
}

pub(crate) fn no_text(alloc: Global) -> FieldValue
    ensures { value_view result ≡ no_text }
{
    FieldValue::Text(empty(alloc))
}

pub(crate) fn text(alloc: Global, text: &Text) -> Result<FieldValue, AllocError>
    ensures { IfOk result (λ value. value_view value ≡ field.text_of text.now) }
{
    Ok(FieldValue::Text(copy(alloc, text)?))
}

pub(crate) fn octets(alloc: Global, bytes: &[u8]) -> Result<FieldValue, AllocError>
    ensures { IfOk result (λ value. value_view value ≡ field.octets bytes.now) }
{
    Ok(FieldValue::Octets(Octets::from_slice(alloc, bytes)?))
}

pub(crate) fn no_elements(alloc: Global) -> FieldValue
    ensures { value_view result ≡ no_elements }
{
    FieldValue::List(FieldVal::from(Vec::new(alloc)))
}

pub(crate) fn list(values: Vec<FieldValue>) -> FieldValue
    ensures { value_view result ≡ spec.list (map value_view values.items) }
{
    FieldValue::List(FieldVal::from(values))
}

pub(crate) fn structure(values: Vec<FieldValue>) -> FieldValue
    ensures { value_view result ≡ spec.structure (map value_view values.items) }
{
    FieldValue::Members(FieldVal::from(values))
}
