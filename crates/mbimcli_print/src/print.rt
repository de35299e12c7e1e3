ghost use Rattle.std.specs.Prelude.{◌≡◌, ◌++◌, chars, decimal, encode_utf8_all, length, map, OnOk};
ghost use Rattle.std.specs.List.{list_any};
ghost use Rattle.mbim_fields.specs.View.{field_view, fixed_view, form_view, item_view, shape_view, value_view};
ghost use Rattle.print_text.specs.Lines.{counted_text, each_text, line};
ghost use Rattle.mbimcli_print.specs.Printed.{address_line, fields_text, fixed_text, form_text, is_counted_by, item_text, number_text, prefixed_text, uuid_line};

use crate::texts::{Family, address_text, uuid_text};
use crate::words::word_for;
use itoa::Buffer;
use kit_bytes::Octets;
use mbim_fields::{Field, FieldShape, FieldValue, Fixed, Form, Item};
use print_text::{Wording, deeper, escaped_text, hex_text, push_heading, push_line, worded};
use std::alloc::{AllocError, Global};

fn print_number(
    alloc: Global,
    wording: Wording,
    out: &mut Octets,
    indent: &[u8],
    name: &str,
    value: &FieldValue,
) -> Result<(), AllocError>
    ensures { OnOk result (out.new ≡ out.old ++ number_text wording indent.now name.now (value_view value.now)) }
{
    let Some(number) = value.as_number() else {
        return Ok(());
    };
    let text = worded(alloc, number, wording.shown(word_for(name, number)))?;
    push_line(out, indent, name, text.as_slice())
}

fn print_uuid(
    alloc: Global,
    out: &mut Octets,
    indent: &[u8],
    name: &str,
    value: &FieldValue,
) -> Result<(), AllocError>
    ensures { OnOk result (out.new ≡ out.old ++ uuid_line indent.now name.now (value_view value.now)) }
{
    let Some(uuid) = value.as_uuid() else {
        return Ok(());
    };
    let text = uuid_text(alloc, uuid)?;
    push_line(out, indent, name, text.as_slice())
}

fn print_address(
    alloc: Global,
    out: &mut Octets,
    indent: &[u8],
    name: &str,
    family: Family,
    value: &FieldValue,
) -> Result<(), AllocError>
    ensures { OnOk result (out.new ≡ out.old ++ address_line family indent.now name.now (value_view value.now)) }
{
    let Some(bytes) = value.as_octets() else {
        return Ok(());
    };
    let text = address_text(alloc, family, bytes.as_slice())?;
    push_line(out, indent, name, text.as_slice())
}

// Adds the length of a prefix, and an address.
fn print_prefixed(
    alloc: Global,
    out: &mut Octets,
    indent: &[u8],
    name: &str,
    family: Family,
    value: &FieldValue,
) -> Result<(), AllocError>
    ensures { OnOk result (out.new ≡ out.old ++ prefixed_text family indent.now name.now (value_view value.now)) }
{
    let Some(members) = value.as_members() else {
        return Ok(());
    };
    let [prefix, address] = members.as_slice() else {
        return Ok(());
    };
    push_heading(out, indent, name)?;
    let inner = deeper(alloc, indent)?;
    let alone = Wording::NumbersAlone;
    print_number(alloc, alone, out, inner.as_slice(), "Prefix", prefix)?;
    print_address(alloc, out, inner.as_slice(), "Address", family, address)?;
    Ok(())
}

// Adds the text of what has one size.
fn print_fixed(
    alloc: Global,
    wording: Wording,
    out: &mut Octets,
    indent: &[u8],
    name: &str,
    fixed: Fixed,
    value: &FieldValue,
) -> Result<(), AllocError>
    ensures { OnOk result (out.new ≡ out.old ++ fixed_text wording (fixed_view fixed) indent.now name.now (value_view value.now)) }
{
    match fixed {
        Fixed::U32 | Fixed::U64 => print_number(alloc, wording, out, indent, name, value),
        Fixed::Uuid => print_uuid(alloc, out, indent, name, value),
        Fixed::Ipv4 => print_address(alloc, out, indent, name, Family::Ipv4, value),
        Fixed::Ipv6 => print_address(alloc, out, indent, name, Family::Ipv6, value),
        Fixed::PrefixedIpv4 => print_prefixed(alloc, out, indent, name, Family::Ipv4, value),
        Fixed::PrefixedIpv6 => print_prefixed(alloc, out, indent, name, Family::Ipv6, value),
    }
}

// Adds the line on how many elements a list has.
fn print_count(
    out: &mut Octets,
    indent: &[u8],
    name: &str,
    values: &[FieldValue],
) -> Result<(), AllocError>
    ensures { OnOk result (out.new ≡ out.old ++ line indent.now name.now (decimal (length values.now))) }
{
    push_line(
        out,
        indent,
        name,
        Buffer::new().format(values.len()).as_bytes(),
    )
}

// Adds the text of a list of what has one size.
fn print_run(
    alloc: Global,
    wording: Wording,
    out: &mut Octets,
    indent: &[u8],
    name: &str,
    fixed: Fixed,
    values: &[FieldValue],
) -> Result<(), AllocError>
    ensures { OnOk result (out.new ≡ out.old ++ counted_text (fixed_text wording (fixed_view fixed)) indent.now name.now (map value_view values.now)) }
{
    print_count(out, indent, name, values)?;
    let inner = deeper(alloc, indent)?;
    print_run_elements(alloc, wording, out, inner.as_slice(), fixed, values)
}

fn print_run_elements(
    alloc: Global,
    wording: Wording,
    out: &mut Octets,
    indent: &[u8],
    fixed: Fixed,
    values: &[FieldValue],
) -> Result<(), AllocError>
    ensures { OnOk result (out.new ≡ out.old ++ each_text (fixed_text wording (fixed_view fixed) indent.now) 1 (map value_view values.now)) }
{
    for (index, value) in values.iter().enumerate() {
        let mut place = Buffer::new();
        print_fixed(
            alloc,
            wording,
            out,
            indent,
            place.format(index + 1),
            fixed,
            value,
        )?;
    }
    Ok(())
}

// Adds the text of an item.
#[cycle(print)]
fn print_item(
    alloc: Global,
    wording: Wording,
    out: &mut Octets,
    indent: &[u8],
    name: &str,
    item: &Item,
    value: &FieldValue,
) -> Result<(), AllocError>
    ensures { OnOk result (out.new ≡ out.old ++ item_text wording (item_view item.now) indent.now name.now (value_view value.now)) }
{
    match item {
        Item::InPlace(fixed) => print_fixed(alloc, wording, out, indent, name, *fixed, value),
        Item::Text => {
            let Some(text) = value.as_text() else {
                return Ok(());
            };
            let shown = escaped_text(alloc, text)?;
            push_line(out, indent, name, shown.as_bytes())
        }
        Item::Binary => {
            let Some(bytes) = value.as_octets() else {
                return Ok(());
            };
            let text = hex_text(alloc, bytes.as_slice())?;
            push_line(out, indent, name, text.as_slice())
        }
        Item::Structure(shape) => {
            let Some(members) = value.as_members() else {
                return Ok(());
            };
            push_heading(out, indent, name)?;
            let inner = deeper(alloc, indent)?;
            let inner = inner.as_slice();
            print_fields(alloc, wording, out, inner, shape, members.as_slice())
        }
    }
}

// Adds the text of a list of items.
#[cycle(print)]
fn print_each(
    alloc: Global,
    wording: Wording,
    out: &mut Octets,
    indent: &[u8],
    name: &str,
    item: &Item,
    values: &[FieldValue],
) -> Result<(), AllocError>
    ensures { OnOk result (out.new ≡ out.old ++ counted_text (item_text wording (item_view item.now)) indent.now name.now (map value_view values.now)) }
{
    print_count(out, indent, name, values)?;
    let inner = deeper(alloc, indent)?;
    print_elements(alloc, wording, out, inner.as_slice(), item, values)
}

#[cycle(print)]
fn print_elements(
    alloc: Global,
    wording: Wording,
    out: &mut Octets,
    indent: &[u8],
    item: &Item,
    values: &[FieldValue],
) -> Result<(), AllocError>
    ensures { OnOk result (out.new ≡ out.old ++ each_text (item_text wording (item_view item.now) indent.now) 1 (map value_view values.now)) }
{
    for (index, value) in values.iter().enumerate() {
        let mut place = Buffer::new();
        print_item(
            alloc,
            wording,
            out,
            indent,
            place.format(index + 1),
            item,
            value,
        )?;
    }
    Ok(())
}

// Adds the text of a field, by how it stands.
#[cycle(print)]
fn print_form(
    alloc: Global,
    wording: Wording,
    out: &mut Octets,
    indent: &[u8],
    name: &str,
    form: &Form,
    value: &FieldValue,
) -> Result<(), AllocError>
    ensures { OnOk result (out.new ≡ out.old ++ form_text wording (form_view form.now) indent.now name.now (value_view value.now)) }
{
    match form {
        Form::One(item) => print_item(alloc, wording, out, indent, name, item, value),
        Form::Each(_, item) => {
            let Some(values) = value.as_list() else {
                return Ok(());
            };
            print_each(alloc, wording, out, indent, name, item, values.as_slice())
        }
        Form::Run(_, fixed) => {
            let Some(values) = value.as_list() else {
                return Ok(());
            };
            print_run(alloc, wording, out, indent, name, *fixed, values.as_slice())
        }
        Form::Perhaps(fixed) => print_fixed(alloc, wording, out, indent, name, *fixed, value),
    }
}

/// Adds the texts of a structure's fields, each with its name, but for those that count the elements of
/// a list.
#[cycle(print)]
pub fn print_fields(
    alloc: Global,
    wording: Wording,
    out: &mut Octets,
    indent: &[u8],
    shape: &FieldShape,
    values: &[FieldValue],
) -> Result<(), AllocError>
    ensures { OnOk result (out.new ≡ out.old ++ fields_text wording (shape_view shape.now) 0 indent.now (map value_view values.now)) }
{
    let fields = shape.0;
    for index in 0..fields.len().min(values.len()) {
        let field = &fields[index];
        let value = &values[index];
        if counts(index, &fields[index + 1..]) {
            continue;
        }
        let name = spelled(field.0);
        print_form(alloc, wording, out, indent, name, &field.1, value)?;
    }
    Ok(())
}

/// The same name, which is known to be what its characters spell.
pub fn spelled(name: &str) -> &str
    ensures { result.now ≡ encode_utf8_all (chars name.now) }
{
    name
}

/// Whether one of these fields has as many elements as the field at a place says.
pub fn counts(place: usize, fields: &[Field]) -> bool
    ensures { result ≡ list_any (λ field. is_counted_by place (field_view field).form) fields.now }
{
    fields.iter().any(|field| is_counted_by(place, field))
}

fn is_counted_by(place: usize, field: &Field) -> bool
    ensures { result ≡ is_counted_by place (field_view field.now).form }
{
    match &field.1 {
        Form::Each(count, _) | Form::Run(count, _) => *count == place,
        Form::One(_) | Form::Perhaps(_) => false,
    }
}
