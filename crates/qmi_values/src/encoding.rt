ghost use Rattle.std.specs.Prelude.{◌≡◌, ◌⊎◌, length, OnOk, IfOk, IfErr};
ghost use Rattle.qmi_shapes.specs.declared.shape.Prefix.TheVariants.{Rest};
ghost use Rattle.qmi_shapes.specs.Form.{array, sequence};
ghost use Rattle.qmi_shapes.specs.View.{shape_view, fields_view};
ghost use Rattle.qmi_shapes.specs.WellMade.{IsSize, IsBounded, IsPart, AreParts, IsWellMade};
ghost use Rattle.qmi_values.specs.Value.{elements, members};
ghost use Rattle.qmi_values.specs.View.{val_view, vals_view};
ghost use Rattle.qmi_values.specs.Numbers.{IsUnsigned, IsSigned};
ghost use Rattle.qmi_values.specs.Spelling.{IsCount, Follows, Spells};
ghost use Rattle.qmi_values.specs.Writing.{Adds, HoldsOfNone};

use crate::numbers::{signed_of, unsigned_of};
use crate::{EncodeFault, Val, Vals};
use kit_bytes::Octets;
use qmi_shapes::{Prefix, Shape, ShapeFields};
use std::alloc::Global;

/// The bytes that spell a value in a shape.
pub fn encode(alloc: Global, shape: &Shape, val: &Val) -> Result<Octets, EncodeFault>
    requires { IsWellMade (shape_view shape.now) }
    ensures ok { IfOk result (Spells (shape_view shape.now) (val_view val.now)) }
    ensures err { IfErr result (HoldsOfNone (Spells (shape_view shape.now) (val_view val.now))) }
{
    let mut out = Octets::new(alloc);
    write(&mut out, shape, val)?;
    Ok(out)
}

fn write_unsigned(out: &mut Octets, size: u8, number: u64) -> Result<(), EncodeFault>
    requires { IsSize size }
    ensures ok { OnOk result (Adds (IsUnsigned size number) out.old out.new) }
    ensures err { IfErr result (HoldsOfNone (IsUnsigned size number)) }
{
    let bytes = number.to_le_bytes();
    let bytes = &bytes[..usize::from(size)];
    if unsigned_of(bytes) != number {
        return Err(EncodeFault::Misfit);
    }
    out.extend_from_slice(bytes)?;
    Ok(())
}

fn write_signed(out: &mut Octets, size: u8, number: i64) -> Result<(), EncodeFault>
    requires { IsSize size }
    ensures ok { OnOk result (Adds (IsSigned size number) out.old out.new) }
    ensures err { IfErr result (HoldsOfNone (IsSigned size number)) }
{
    let bytes = number.to_le_bytes();
    let bytes = &bytes[..usize::from(size)];
    if signed_of(bytes) != number {
        return Err(EncodeFault::Misfit);
    }
    out.extend_from_slice(bytes)?;
    Ok(())
}

// What stands before so many bytes or elements.
fn write_count(out: &mut Octets, prefix: Prefix, count: usize) -> Result<(), EncodeFault>
    requires { (prefix ≡ Rest) ⊎ IsBounded prefix }
    ensures ok { OnOk result (Adds (IsCount prefix count) out.old out.new) }
    ensures err { IfErr result (HoldsOfNone (IsCount prefix count)) }
{
    match prefix {
        Prefix::Rest => Ok(()),
        Prefix::Fixed(number) if count == usize::from(number) => Ok(()),
        Prefix::Fixed(_) => Err(EncodeFault::Misfit),
        Prefix::Counted(size) => write_unsigned(out, size, count as u64),
    }
}

fn write_text(out: &mut Octets, prefix: Prefix, octets: &[u8]) -> Result<(), EncodeFault>
    requires { (prefix ≡ Rest) ⊎ IsBounded prefix }
    ensures ok { OnOk result (Adds (Follows (IsCount prefix (length octets.now)) (λ back. back ≡ octets.now)) out.old out.new) }
    ensures err { IfErr result (HoldsOfNone (Follows (IsCount prefix (length octets.now)) (λ back. back ≡ octets.now))) }
{
    write_count(out, prefix, octets.len())?;
    out.extend_from_slice(octets)?;
    Ok(())
}

#[cycle(write)]
fn write(out: &mut Octets, shape: &Shape, val: &Val) -> Result<(), EncodeFault>
    requires { IsWellMade (shape_view shape.now) }
    ensures ok { OnOk result (Adds (Spells (shape_view shape.now) (val_view val.now)) out.old out.new) }
    ensures err { IfErr result (HoldsOfNone (Spells (shape_view shape.now) (val_view val.now))) }
{
    match shape {
        Shape::U(size) => {
            let Some(number) = val.as_u64() else {
                return Err(EncodeFault::Misfit);
            };
            write_unsigned(out, *size, number)
        }
        Shape::I(size) => {
            let Some(number) = val.as_i64() else {
                return Err(EncodeFault::Misfit);
            };
            write_signed(out, *size, number)
        }
        Shape::Str(prefix) => {
            let Some(octets) = val.as_octets() else {
                return Err(EncodeFault::Misfit);
            };
            write_text(out, *prefix, octets.as_slice())
        }
        Shape::List(prefix, element) => {
            let Some(vals) = val.as_list() else {
                return Err(EncodeFault::Misfit);
            };
            write_list(out, *prefix, element, vals)
        }
        Shape::Seq(fields) => {
            let Some(vals) = val.as_seq() else {
                return Err(EncodeFault::Misfit);
            };
            write_fields(out, fields, vals)
        }
    }
}

#[cycle(write)]
fn write_list(
    out: &mut Octets,
    prefix: Prefix,
    element: &Shape,
    vals: &Vals,
) -> Result<(), EncodeFault>
    requires bounded { IsBounded prefix }
    requires part { IsPart (shape_view element.now) }
    ensures ok { OnOk result (Adds (Spells (array prefix (shape_view element.now)) (elements (vals_view vals.now))) out.old out.new) }
    ensures err { IfErr result (HoldsOfNone (Spells (array prefix (shape_view element.now)) (elements (vals_view vals.now)))) }
{
    let vals = vals.as_slice();
    write_count(out, prefix, vals.len())?;
    for val in vals {
        write(out, element, val)?;
    }
    Ok(())
}

#[cycle(write)]
fn write_fields(out: &mut Octets, fields: &ShapeFields, vals: &Vals) -> Result<(), EncodeFault>
    requires { AreParts (fields_view fields.now) }
    ensures ok { OnOk result (Adds (Spells (sequence (fields_view fields.now)) (members (vals_view vals.now))) out.old out.new) }
    ensures err { IfErr result (HoldsOfNone (Spells (sequence (fields_view fields.now)) (members (vals_view vals.now)))) }
{
    let fields = fields.as_slice();
    let vals = vals.as_slice();
    if fields.len() != vals.len() {
        return Err(EncodeFault::Misfit);
    }
    for (index, field) in fields.iter().enumerate() {
        write(out, &field.shape, &vals[index])?;
    }
    Ok(())
}
