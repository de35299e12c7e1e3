ghost use Rattle.std.specs.Prelude.{◌≡◌, ◌↔◌, IfOk, IfErr, IsTrue};
ghost use Rattle.qmi_shapes.specs.declared.shape.Prefix.TheVariants.{Rest};
ghost use Rattle.qmi_shapes.specs.Form.{string, array, sequence};
ghost use Rattle.qmi_shapes.specs.View.{shape_view, fields_view};
ghost use Rattle.qmi_shapes.specs.WellMade.{IsBounded, IsPart, AreParts, IsWellMade};
ghost use Rattle.qmi_values.specs.Value.{elements, members};
ghost use Rattle.qmi_values.specs.View.{val_view, vals_view};
ghost use Rattle.qmi_values.specs.Spelling.{Spells};
ghost use Rattle.qmi_values.specs.Reading.{Takes, StopsIn};
ghost use Rattle.qmi_values.specs.Decoding.{Refuses};

use crate::reader::Reader;
use crate::{Val, ValFault, Vals};
use kit_bytes::Octets;
use qmi_shapes::{Prefix, Shape, ShapeFields};
use std::alloc::Global;

/// The value that these bytes spell in a shape.
pub fn decode(alloc: Global, shape: &Shape, bytes: &[u8]) -> Result<Val, ValFault>
    requires { IsWellMade (shape_view shape.now) }
    ensures ok { IfOk result (λ val. Spells (shape_view shape.now) (val_view val) bytes.now) }
    ensures err { IfErr result (Refuses (shape_view shape.now) bytes.now) }
{
    if is_rest(shape) {
        return Ok(Val::Str(Octets::from_slice(alloc, bytes)?));
    }
    let mut reader = Reader::new(bytes);
    let val = read(alloc, &mut reader, shape)?;
    if reader.is_at_end() {
        Ok(val)
    } else {
        let place = reader.place();
        Err(ValFault::Over { place })
    }
}

// A text that is all the bytes.
fn is_rest(shape: &Shape) -> bool
    ensures { IsTrue result ↔ (shape_view shape.now ≡ string Rest) }
{
    let Shape::Str(prefix) = shape else {
        return false;
    };
    *prefix == Prefix::Rest
}

#[cycle(read)]
fn read(alloc: Global, reader: &mut Reader<'_>, shape: &Shape) -> Result<Val, ValFault>
    requires { IsPart (shape_view shape.now) }
    ensures ok { IfOk result (λ val. Takes (Spells (shape_view shape.now) (val_view val)) reader.old reader.new) }
    ensures err { IfErr result (StopsIn (shape_view shape.now) reader.old) }
{
    match shape {
        Shape::U(size) => Ok(Val::U(reader.unsigned(*size)?)),
        Shape::I(size) => Ok(Val::I(reader.signed(*size)?)),
        Shape::Str(prefix) => {
            let octets = reader.text(*prefix)?;
            Ok(Val::Str(Octets::from_slice(alloc, octets)?))
        }
        Shape::List(prefix, element) => {
            Ok(Val::List(read_list(alloc, reader, *prefix, element)?))
        }
        Shape::Seq(fields) => Ok(Val::Seq(read_fields(alloc, reader, fields)?)),
    }
}

#[cycle(read)]
fn read_list(
    alloc: Global,
    reader: &mut Reader<'_>,
    prefix: Prefix,
    element: &Shape,
) -> Result<Vals, ValFault>
    requires bounded { IsBounded prefix }
    requires part { IsPart (shape_view element.now) }
    ensures ok { IfOk result (λ vals. Takes (Spells (array prefix (shape_view element.now)) (elements (vals_view vals))) reader.old reader.new) }
    ensures err { IfErr result (StopsIn (array prefix (shape_view element.now)) reader.old) }
{
    let count = reader.count(prefix)?;
    let mut vals = Vec::new(alloc);
    for _ in 0..count {
        vals.push(read(alloc, reader, element)?)?;
    }
    Ok(Vals::from(vals))
}

#[cycle(read)]
fn read_fields(
    alloc: Global,
    reader: &mut Reader<'_>,
    fields: &ShapeFields,
) -> Result<Vals, ValFault>
    requires { AreParts (fields_view fields.now) }
    ensures ok { IfOk result (λ vals. Takes (Spells (sequence (fields_view fields.now)) (members (vals_view vals))) reader.old reader.new) }
    ensures err { IfErr result (StopsIn (sequence (fields_view fields.now)) reader.old) }
{
    let mut vals = Vec::new(alloc);
    for field in fields.as_slice() {
        vals.push(read(alloc, reader, &field.shape)?)?;
    }
    Ok(Vals::from(vals))
}
