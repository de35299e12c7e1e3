ghost use Rattle.std.specs.Prelude.{◌≡◌, [], ◌∷◌, length, map, chars, option_map, option_copied};
ghost use Rattle.serde_json.specs.Find.{as_array};
ghost use Rattle.serde_json.specs.View.{view, items_view};
ghost use Rattle.qmi_shapes.specs.Form.{array, sequence};
ghost use Rattle.qmi_shapes.specs.View.{shape_view, field_view, fields_of, fields_view};
ghost use Rattle.qmi_values.specs.Value.{number, elements, values_of};
ghost use Rattle.qmi_values.specs.View.{val_view};
ghost use Rattle.json_values.specs.Answers.{Gives, IsUnder, LeadsTo};
ghost use Rattle.json_values.specs.Given.{if_counted, text_by, elements_by, list_by, given, fields_given, named_by, member_by};
ghost use Rattle.json_values.specs.Texts.{octets_in};

use crate::counts::count_fits;
use crate::members::first_other;
use crate::numbers::{signed_in, unsigned_in};
use crate::texts::{digits_for, octets_in};
use crate::{Step, ValueFault};
use kit_bytes::Text;
use qmi_shapes::{Prefix, Shape, ShapeField, ShapeFields};
use qmi_values::{Val, Vals};
use serde_json::Value;
use std::alloc::{AllocError, Global};
use tlv_values::{list, list_of_bytes};

/// The value that a JSON value gives in a shape.
#[cycle(values)]
#[tactic(auto, using(qmi_shapes::proofs::Views::shape_views))]
pub fn value_of(alloc: Global, shape: &Shape, json: &Value) -> Result<Val, ValueFault>
    ensures { Gives val_view (given (shape_view shape.now) (view json.now)) result }
{
    match shape {
        Shape::U(size) => match unsigned_in(*size, json) {
            Some(number) => Ok(Val::U(number)),
            None => Err(ValueFault::whole(alloc)),
        },
        Shape::I(size) => match signed_in(*size, json) {
            Some(number) => Ok(Val::I(number)),
            None => Err(ValueFault::whole(alloc)),
        },
        Shape::Str(prefix) => text_in(alloc, *prefix, json),
        Shape::List(prefix, element) => list_in(alloc, *prefix, element, json),
        Shape::Seq(fields) => sequence_in(alloc, fields, json),
    }
}

fn text_in(alloc: Global, prefix: Prefix, json: &Value) -> Result<Val, ValueFault>
    ensures { Gives val_view (text_by prefix (octets_in (view json.now))) result }
{
    let Some(octets) = octets_in(alloc, json)? else {
        return Err(ValueFault::whole(alloc));
    };
    if count_fits(prefix, octets.as_slice().len()) {
        Ok(Val::Str(octets))
    } else {
        Err(ValueFault::whole(alloc))
    }
}

#[cycle(values)]
fn list_in(alloc: Global, prefix: Prefix, element: &Shape, json: &Value) -> Result<Val, ValueFault>
    ensures { Gives val_view (given (array prefix (shape_view element.now)) (view json.now)) result }
{
    match digits_for(alloc, element, json)? {
        Some(bytes) => bytes_in(alloc, prefix, bytes.as_slice()),
        None => items_in(alloc, prefix, element, json),
    }
}

#[cycle(values)]
fn items_in(alloc: Global, prefix: Prefix, element: &Shape, json: &Value) -> Result<Val, ValueFault>
    ensures { Gives val_view (list_by prefix (as_array (view json.now)) (given (shape_view element.now))) result }
{
    let Some(items) = json.as_array() else {
        return Err(ValueFault::whole(alloc));
    };
    let items = items.as_slice();
    if !count_fits(prefix, items.len()) {
        return Err(ValueFault::whole(alloc));
    }
    Ok(list(elements_in(alloc, element, items)?))
}

fn bytes_in(alloc: Global, prefix: Prefix, bytes: &[u8]) -> Result<Val, ValueFault>
    ensures { Gives val_view (if_counted prefix (length bytes.now) (Ok (elements (values_of (map number bytes.now))))) result }
{
    if count_fits(prefix, bytes.len()) {
        Ok(list_of_bytes(alloc, bytes)?)
    } else {
        Err(ValueFault::whole(alloc))
    }
}

#[cycle(values)]
fn elements_in(alloc: Global, element: &Shape, items: &[Value]) -> Result<Vec<Val>, ValueFault>
    ensures { Gives (λ vals. map val_view vals.items) (elements_by (given (shape_view element.now)) 0 (items_view items.now)) result }
{
    let mut vals = Vec::new(alloc);
    for (index, item) in items.iter().enumerate() {
        match value_of(alloc, element, item) {
            Ok(val) => vals.push(val)?,
            Err(fault) => return Err(fault.under(Step::Element(index))),
        }
    }
    Ok(vals)
}

#[cycle(values)]
fn sequence_in(alloc: Global, fields: &ShapeFields, json: &Value) -> Result<Val, ValueFault>
    ensures { Gives val_view (given (sequence (fields_view fields.now)) (view json.now)) result }
{
    let Some(members) = json.as_object() else {
        return Err(ValueFault::whole(alloc));
    };
    let fields = fields.as_slice();
    match first_other(fields, members) {
        Some(other) => Err(no_member(alloc, other)),
        None => {
            let vals = fields_in(alloc, fields, json)?;
            Ok(Val::Seq(Vals::from(vals)))
        }
    }
}

#[cycle(values)]
fn fields_in(alloc: Global, fields: &[ShapeField], json: &Value) -> Result<Vec<Val>, ValueFault>
    ensures { Gives (λ vals. map val_view vals.items) (fields_given (fields_of (map field_view fields.now)) (view json.now)) result }
{
    let mut vals = Vec::new(alloc);
    for field in fields {
        let value = json.get(field.name.as_str());
        vals.push(named_value(alloc, &field.name, &field.shape, value)?)?;
    }
    Ok(vals)
}

/// The value that the member of a name gives in a shape.
#[cycle(values)]
pub fn named_value(
    alloc: Global,
    name: &Text,
    shape: &Shape,
    value: Option<&Value>,
) -> Result<Val, ValueFault>
    ensures { Gives val_view (named_by name.now (given (shape_view shape.now)) (option_map view (option_copied value.entry))) result }
{
    match member_value(alloc, shape, value) {
        Ok(val) => Ok(val),
        Err(fault) => Err(under_member(alloc, name, fault)),
    }
}

#[cycle(values)]
fn member_value(alloc: Global, shape: &Shape, value: Option<&Value>) -> Result<Val, ValueFault>
    ensures { Gives val_view (member_by (given (shape_view shape.now)) (option_map view (option_copied value.entry))) result }
{
    match value {
        Some(json) => value_of(alloc, shape, json),
        None => Err(ValueFault::whole(alloc)),
    }
}

fn under_member(alloc: Global, name: &Text, fault: ValueFault) -> ValueFault
    ensures { IsUnder (Step.Member name.now) fault result }
{
    match Text::from_str(alloc, name.as_str()) {
        Ok(name) => fault.under(Step::Member(name)),
        Err(AllocError) => ValueFault::OutOfMemory,
    }
}

// There is no such member.
fn no_member(alloc: Global, name: &str) -> ValueFault
    ensures { LeadsTo (Step.Member (chars name.now) ∷ []) result }
{
    match Text::from_str(alloc, name) {
        Ok(name) => ValueFault::whole(alloc).under(Step::Member(name)),
        Err(AllocError) => ValueFault::OutOfMemory,
    }
}
