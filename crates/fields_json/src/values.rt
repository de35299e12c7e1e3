ghost use Rattle.std.specs.Prelude.{◌≡◌, ◌++◌, map, IfOk, OnOk};
ghost use Rattle.serde_json.specs.Data.{array as listed, object, no_members};
ghost use Rattle.serde_json.specs.View.{items_of, members_view, view};
ghost use Rattle.mbim_fields.specs.View.{fixed_view, form_view, item_view, shape_view, value_view};
ghost use Rattle.fields_json.specs.Json.{fixed_json, form_json, item_json, with_field, with_fields, word_of};

use crate::texts::{bytes_json, fixed_json, string_json};
use json_values::put_word;
use kit_bytes::Octets;
use mbim_fields::{FieldShape, FieldValue, Fixed, Form, Item};
use mbimcli_print::{counts, spelled, word_for};
use serde_json::{Map, Value, push, put};
use std::alloc::{AllocError, Global};

// The JSON value of a field's value, by how the field stands.
#[cycle(values)]
#[tactic(auto, using(json_values::proofs::Views::json_views))]
fn form_json(alloc: Global, form: &Form, value: &FieldValue) -> Result<Value, AllocError>
    ensures { IfOk result (λ json. view json ≡ form_json (form_view form.now) (value_view value.now)) }
{
    match form {
        Form::One(item) => item_json(alloc, item, value),
        Form::Each(_, item) => match value.as_list() {
            Some(values) => each_json(alloc, item, values.as_slice()),
            None => Ok(Value::Null),
        },
        Form::Run(_, fixed) => match value.as_list() {
            Some(values) => run_json(alloc, *fixed, values.as_slice()),
            None => Ok(Value::Null),
        },
        Form::Perhaps(fixed) => fixed_json(alloc, *fixed, value),
    }
}

// The JSON of a list of what has one size.
#[tactic(auto, using(json_values::proofs::Views::json_views))]
fn run_json(alloc: Global, fixed: Fixed, values: &[FieldValue]) -> Result<Value, AllocError>
    ensures { IfOk result (λ json. view json ≡ listed (items_of (map (fixed_json (fixed_view fixed)) (map value_view values.now)))) }
{
    let mut items = Vec::new(alloc);
    push_run(alloc, fixed, values, &mut items)?;
    Ok(Value::Array(items))
}

// Adds what has one size to a list.
fn push_run(
    alloc: Global,
    fixed: Fixed,
    values: &[FieldValue],
    items: &mut Vec<Value>,
) -> Result<(), AllocError>
    ensures { OnOk result (map view items.new.items ≡ map view items.old.items ++ map (fixed_json (fixed_view fixed)) (map value_view values.now)) }
{
    for value in values {
        push(items, fixed_json(alloc, fixed, value)?)?;
    }
    Ok(())
}

// The JSON of a list of items.
#[cycle(values)]
#[tactic(auto, using(json_values::proofs::Views::json_views))]
fn each_json(alloc: Global, item: &Item, values: &[FieldValue]) -> Result<Value, AllocError>
    ensures { IfOk result (λ json. view json ≡ listed (items_of (map (item_json (item_view item.now)) (map value_view values.now)))) }
{
    let mut items = Vec::new(alloc);
    push_each(alloc, item, values, &mut items)?;
    Ok(Value::Array(items))
}

// Adds items to a list.
#[cycle(values)]
fn push_each(
    alloc: Global,
    item: &Item,
    values: &[FieldValue],
    items: &mut Vec<Value>,
) -> Result<(), AllocError>
    ensures { OnOk result (map view items.new.items ≡ map view items.old.items ++ map (item_json (item_view item.now)) (map value_view values.now)) }
{
    for value in values {
        push(items, item_json(alloc, item, value)?)?;
    }
    Ok(())
}

#[cycle(values)]
#[tactic(auto, using(json_values::proofs::Views::json_views))]
fn item_json(alloc: Global, item: &Item, value: &FieldValue) -> Result<Value, AllocError>
    ensures { IfOk result (λ json. view json ≡ item_json (item_view item.now) (value_view value.now)) }
{
    match item {
        Item::InPlace(fixed) => fixed_json(alloc, *fixed, value),
        Item::Text => string_json(alloc, value),
        Item::Binary => bytes_json(alloc, value),
        Item::Structure(shape) => match value.as_members() {
            Some(values) => object_json(alloc, shape, values.as_slice()),
            None => Ok(Value::Null),
        },
    }
}

// The JSON of a structure's fields.
#[cycle(values)]
#[tactic(auto, using(json_values::proofs::Views::json_views))]
fn object_json(
    alloc: Global,
    shape: &FieldShape,
    values: &[FieldValue],
) -> Result<Value, AllocError>
    ensures { IfOk result (λ json. view json ≡ object (with_fields (shape_view shape.now) 0 (map value_view values.now) no_members)) }
{
    let mut members = Map::new(alloc);
    put_fields(alloc, shape, values, &mut members)?;
    Ok(Value::Object(members))
}

/// Adds a structure's fields by their names, but for those that count the elements of a list.
#[cycle(values)]
pub fn put_fields(
    alloc: Global,
    shape: &FieldShape,
    values: &[FieldValue],
    members: &mut Map<String, Value>,
) -> Result<(), AllocError>
    ensures { OnOk result (members_view members.new.entries ≡ with_fields (shape_view shape.now) 0 (map value_view values.now) (members_view members.old.entries)) }
{
    let fields = shape.0;
    for index in 0..fields.len().min(values.len()) {
        let field = &fields[index];
        let value = &values[index];
        if counts(index, &fields[index + 1..]) {
            continue;
        }
        let name = spelled(field.0);
        put_field(alloc, name, &field.1, value, members)?;
    }
    Ok(())
}

// Adds a field by its name, and the word for its number where it has one.
#[cycle(values)]
fn put_field(
    alloc: Global,
    name: &str,
    form: &Form,
    value: &FieldValue,
    members: &mut Map<String, Value>,
) -> Result<(), AllocError>
    ensures { OnOk result (members_view members.new.entries ≡ with_field name.now (form_view form.now) (value_view value.now) (members_view members.old.entries)) }
{
    put(members, alloc, name, form_json(alloc, form, value)?)?;
    let word = word_of(alloc, name, value)?;
    put_word(alloc, name, word, members)
}

// The word for a value of a name, where it is a number that has one.
fn word_of(alloc: Global, name: &str, value: &FieldValue) -> Result<Option<Octets>, AllocError>
    ensures { IfOk result (λ word. word ≡ word_of name.now (value_view value.now)) }
{
    let Some(number) = value.as_number() else {
        return Ok(None);
    };
    match word_for(name, number) {
        Some(word) => Ok(Some(Octets::from_slice(alloc, word.as_bytes())?)),
        None => Ok(None),
    }
}
