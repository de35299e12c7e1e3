ghost use Rattle.std.specs.Prelude.{◌≡◌, ◌&&◌, false, map, IfOk, OnOk};
ghost use Rattle.serde_json.specs.Data.{array as listed, object, no_members};
ghost use Rattle.serde_json.specs.View.{items_of, members_view, view};
ghost use Rattle.qmi_shapes.specs.View.{field_view, fields_of, fields_view, shape_view};
ghost use Rattle.qmi_values.specs.View.{val_view};
ghost use Rattle.message_tables.specs.Tlvs.{is_byte};
ghost use Rattle.json_values.specs.Json.{array_json, integer_json, json_of, list_json, number_json, sequence_json, string_json, with_field, with_fields, with_word, word_of};

use crate::Shows;
use crate::json_texts::{list_digits, text_json};
use kit_bytes::Octets;
use message_tables::is_byte;
use qmi_shapes::{Shape, ShapeField, ShapeFields};
use qmi_values::Val;
use serde_json::{Map, Value, push, put};
use std::alloc::{AllocError, Global};

/// The JSON value of a value in a shape. A list of bytes may stand as their digits.
#[cycle(values)]
#[tactic(auto, using(qmi_shapes::proofs::Views::shape_views))]
pub fn json_of<S: Shows>(
    alloc: Global,
    shows: &S,
    digits: bool,
    shape: &Shape,
    val: &Val,
) -> Result<Value, AllocError>
    ensures { IfOk result (λ json. view json ≡ json_of (S.showing shows.now) digits (shape_view shape.now) (val_view val.now)) }
{
    match shape {
        Shape::U(_) => Ok(number_json(val)),
        Shape::I(_) => Ok(integer_json(val)),
        Shape::Str(_) => string_json(alloc, val),
        Shape::List(_, element) => array_json(alloc, shows, digits, element, val),
        Shape::Seq(fields) => sequence_json(alloc, shows, fields, val),
    }
}

#[tactic(auto, using(crate::proofs::Views::json_views))]
fn number_json(val: &Val) -> Value
    ensures { view result ≡ number_json (val_view val.now) }
{
    match val.as_u64() {
        Some(number) => Value::from(number),
        None => Value::Null,
    }
}

#[tactic(auto, using(crate::proofs::Views::json_views))]
fn integer_json(val: &Val) -> Value
    ensures { view result ≡ integer_json (val_view val.now) }
{
    match val.as_i64() {
        Some(number) => Value::from(number),
        None => Value::Null,
    }
}

#[tactic(auto, using(crate::proofs::Views::json_views))]
fn string_json(alloc: Global, val: &Val) -> Result<Value, AllocError>
    ensures { IfOk result (λ json. view json ≡ string_json (val_view val.now)) }
{
    match val.as_octets() {
        Some(octets) => text_json(alloc, octets.as_slice()),
        None => Ok(Value::Null),
    }
}

#[cycle(values)]
#[tactic(auto, using(crate::proofs::Views::json_views))]
fn array_json<S: Shows>(
    alloc: Global,
    shows: &S,
    digits: bool,
    element: &Shape,
    val: &Val,
) -> Result<Value, AllocError>
    ensures { IfOk result (λ json. view json ≡ array_json (digits && is_byte (shape_view element.now)) (json_of (S.showing shows.now) false (shape_view element.now)) (val_view val.now)) }
{
    match val.as_list() {
        Some(vals) => list_json(alloc, shows, digits, element, vals.as_slice()),
        None => Ok(Value::Null),
    }
}

// The JSON of a list's elements.
#[cycle(values)]
fn list_json<S: Shows>(
    alloc: Global,
    shows: &S,
    digits: bool,
    element: &Shape,
    vals: &[Val],
) -> Result<Value, AllocError>
    ensures { IfOk result (λ json. view json ≡ list_json (digits && is_byte (shape_view element.now)) (json_of (S.showing shows.now) false (shape_view element.now)) (map val_view vals.now)) }
{
    if digits && is_byte(element) {
        list_digits(alloc, vals)
    } else {
        elements_json(alloc, shows, element, vals)
    }
}

#[cycle(values)]
#[tactic(auto, using(crate::proofs::Views::json_views))]
fn elements_json<S: Shows>(
    alloc: Global,
    shows: &S,
    element: &Shape,
    vals: &[Val],
) -> Result<Value, AllocError>
    ensures { IfOk result (λ json. view json ≡ listed (items_of (map (json_of (S.showing shows.now) false (shape_view element.now)) (map val_view vals.now)))) }
{
    let mut items = Vec::new(alloc);
    for val in vals {
        push(&mut items, json_of(alloc, shows, false, element, val)?)?;
    }
    Ok(Value::Array(items))
}

#[cycle(values)]
#[tactic(auto, using(crate::proofs::Views::json_views))]
fn sequence_json<S: Shows>(
    alloc: Global,
    shows: &S,
    fields: &ShapeFields,
    val: &Val,
) -> Result<Value, AllocError>
    ensures { IfOk result (λ json. view json ≡ sequence_json (λ values. with_fields (S.showing shows.now) (fields_view fields.now) values no_members) (val_view val.now)) }
{
    match val.as_seq() {
        Some(vals) => object_json(alloc, shows, fields.as_slice(), vals.as_slice()),
        None => Ok(Value::Null),
    }
}

// The JSON of a sequence's fields.
#[cycle(values)]
#[tactic(auto, using(crate::proofs::Views::json_views))]
fn object_json<S: Shows>(
    alloc: Global,
    shows: &S,
    fields: &[ShapeField],
    vals: &[Val],
) -> Result<Value, AllocError>
    ensures { IfOk result (λ json. view json ≡ object (with_fields (S.showing shows.now) (fields_of (map field_view fields.now)) (map val_view vals.now) no_members)) }
{
    let mut members = Map::new(alloc);
    put_fields(alloc, shows, fields, vals, &mut members)?;
    Ok(Value::Object(members))
}

// Adds fields by their names.
#[cycle(values)]
fn put_fields<S: Shows>(
    alloc: Global,
    shows: &S,
    fields: &[ShapeField],
    vals: &[Val],
    members: &mut Map<String, Value>,
) -> Result<(), AllocError>
    ensures { OnOk result (members_view members.new.entries ≡ with_fields (S.showing shows.now) (fields_of (map field_view fields.now)) (map val_view vals.now) (members_view members.old.entries)) }
{
    for index in 0..fields.len().min(vals.len()) {
        let field = &fields[index];
        let name = field.name.as_str();
        put_field(alloc, shows, name, &field.shape, &vals[index], members)?;
    }
    Ok(())
}

/// Adds a field by its name, and the word for its number where it has one.
#[cycle(values)]
pub fn put_field<S: Shows>(
    alloc: Global,
    shows: &S,
    name: &str,
    shape: &Shape,
    val: &Val,
    members: &mut Map<String, Value>,
) -> Result<(), AllocError>
    ensures { OnOk result (members_view members.new.entries ≡ with_field (S.showing shows.now) name.now (shape_view shape.now) (val_view val.now) (members_view members.old.entries)) }
{
    let json = json_of(alloc, shows, shows.has_digits(name), shape, val)?;
    put(members, alloc, name, json)?;
    let word = word_of(alloc, shows, name, shape, val)?;
    put_word(alloc, name, word, members)?;
    Ok(())
}

// The word for a value of a name, where it is a number that has one.
#[tactic(auto, using(qmi_shapes::proofs::Views::shape_views))]
fn word_of<S: Shows>(
    alloc: Global,
    shows: &S,
    name: &str,
    shape: &Shape,
    val: &Val,
) -> Result<Option<Octets>, AllocError>
    ensures { IfOk result (λ word. word ≡ word_of (S.showing shows.now) name.now (shape_view shape.now) (val_view val.now)) }
{
    match shape {
        Shape::U(_) => match val.as_u64() {
            Some(number) => shows.word(alloc, name, number),
            None => Ok(None),
        },
        Shape::I(_) | Shape::Str(_) | Shape::List(..) | Shape::Seq(_) => Ok(None),
    }
}

/// Adds the word of a name, where there is one.
pub fn put_word(
    alloc: Global,
    name: &str,
    word: Option<Octets>,
    members: &mut Map<String, Value>,
) -> Result<(), AllocError>
    ensures { OnOk result (members_view members.new.entries ≡ with_word name.now word (members_view members.old.entries)) }
{
    let Some(word) = word else {
        return Ok(());
    };
    let json = text_json(alloc, word.as_slice())?;
    let mut key = String::from_str(alloc, name)?;
    key.push_str(" word")?;
    put(members, alloc, key.as_str(), json)
}
