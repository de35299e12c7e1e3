ghost use Rattle.std.specs.Prelude.{◌≡◌, ◌^◌, ◌≤◌, [], length, map, Some, option_map, option_and_then, OnOk, IfOk, IfErr, IfSome, IsNone};
ghost use Rattle.mbim_fields.specs.Layout as layout;
ghost use Rattle.mbim_fields.specs.Value.{list_of, as_octets, as_elements, as_members};
ghost use Rattle.mbim_fields.specs.View.{layout_of, fixed_view, item_view, form_view, field_view, shape_view, value_view, val_view};
ghost use Rattle.mbim_fields.specs.Canon.{canon};
ghost use Rattle.mbim_fields.specs.Canon as spec;
ghost use Rattle.mbim_fields.specs.Encoding.{Adds, IsMisfit};

use crate::laid::Laid;
use crate::numbers::{eight_bytes, four_bytes};
use crate::value::count_in;
use crate::{EncodeFault, Field, FieldShape, FieldVal, FieldValue, Fixed, Form, Item};
use kit_bytes::{Octets, Text, utf16_from_text};
use std::alloc::Global;

/// The encoding of values in a layout. The data that pairs and offsets point at stands behind the
/// fields, in their order, each filled up with zeros to a multiple of 4.
pub fn encode_fields(
    alloc: Global,
    shape: &FieldShape,
    val: &FieldVal,
) -> Result<Octets, EncodeFault>
    ensures ok { IfOk result (λ octets. canon (shape_view shape.now) (list_of (val_view val.now)) ≡ Some octets) }
    ensures err { IfErr result (IsMisfit (canon (shape_view shape.now) (list_of (val_view val.now)))) }
{
    structure_bytes(alloc, shape, val.as_slice())
}

// Adds the bytes that a value has, if they are so many.
fn add_octets(out: &mut Octets, count: usize, value: &FieldValue) -> Result<(), EncodeFault>
    ensures ok { OnOk result (Adds (option_and_then (spec.octets_in count) (as_octets (value_view value.now))) out.old out.new) }
    ensures err { IfErr result (IsMisfit (option_and_then (spec.octets_in count) (as_octets (value_view value.now)))) }
{
    let Some(octets) = value.as_octets() else {
        return Err(EncodeFault::Misfit);
    };
    if octets.as_slice().len() != count {
        return Err(EncodeFault::Misfit);
    }
    out.extend_from_slice(octets.as_slice())?;
    Ok(())
}

fn add_uuid(out: &mut Octets, value: &FieldValue) -> Result<(), EncodeFault>
    ensures ok { OnOk result (Adds (spec.fixed_bytes layout.uuid (value_view value.now)) out.old out.new) }
    ensures err { IfErr result (IsMisfit (spec.fixed_bytes layout.uuid (value_view value.now))) }
{
    let Some(uuid) = value.as_uuid() else {
        return Err(EncodeFault::Misfit);
    };
    out.extend_from_slice(uuid.as_bytes())?;
    Ok(())
}

fn add_u32(out: &mut Octets, value: &FieldValue) -> Result<(), EncodeFault>
    ensures ok { OnOk result (Adds (spec.fixed_bytes layout.u32 (value_view value.now)) out.old out.new) }
    ensures err { IfErr result (IsMisfit (spec.fixed_bytes layout.u32 (value_view value.now))) }
{
    let Some(number) = value.as_number() else {
        return Err(EncodeFault::Misfit);
    };
    let Some(bytes) = four_bytes(number) else {
        return Err(EncodeFault::Misfit);
    };
    out.extend_from_slice(&bytes)?;
    Ok(())
}

fn add_u64(out: &mut Octets, value: &FieldValue) -> Result<(), EncodeFault>
    ensures ok { OnOk result (Adds (spec.fixed_bytes layout.u64 (value_view value.now)) out.old out.new) }
    ensures err { IfErr result (IsMisfit (spec.fixed_bytes layout.u64 (value_view value.now))) }
{
    let Some(number) = value.as_number() else {
        return Err(EncodeFault::Misfit);
    };
    out.extend_from_slice(&eight_bytes(number))?;
    Ok(())
}

// Adds a prefix's length, and behind it an address of so many bytes.
fn add_prefixed(out: &mut Octets, count: usize, value: &FieldValue) -> Result<(), EncodeFault>
    ensures ok { OnOk result (Adds (option_and_then (spec.prefixed_in count) (as_members (value_view value.now))) out.old out.new) }
    ensures err { IfErr result (IsMisfit (option_and_then (spec.prefixed_in count) (as_members (value_view value.now)))) }
{
    let Some(members) = value.as_members() else {
        return Err(EncodeFault::Misfit);
    };
    let [prefix, address] = members.as_slice() else {
        return Err(EncodeFault::Misfit);
    };
    add_u32(out, prefix)?;
    add_octets(out, count, address)
}

pub(crate) fn add_fixed(
    out: &mut Octets,
    fixed: Fixed,
    value: &FieldValue,
) -> Result<(), EncodeFault>
    ensures ok { OnOk result (Adds (spec.fixed_bytes (fixed_view fixed) (value_view value.now)) out.old out.new) }
    ensures err { IfErr result (IsMisfit (spec.fixed_bytes (fixed_view fixed) (value_view value.now))) }
{
    match fixed {
        Fixed::U32 => add_u32(out, value),
        Fixed::U64 => add_u64(out, value),
        Fixed::Uuid => add_uuid(out, value),
        Fixed::Ipv4 => add_octets(out, 4, value),
        Fixed::Ipv6 => add_octets(out, 16, value),
        Fixed::PrefixedIpv4 => add_prefixed(out, 4, value),
        Fixed::PrefixedIpv6 => add_prefixed(out, 16, value),
    }
}

fn fixed_bytes(alloc: Global, fixed: Fixed, value: &FieldValue) -> Result<Octets, EncodeFault>
    ensures ok { IfOk result (λ octets. spec.fixed_bytes (fixed_view fixed) (value_view value.now) ≡ Some octets) }
    ensures err { IfErr result (IsMisfit (spec.fixed_bytes (fixed_view fixed) (value_view value.now))) }
{
    let mut octets = Octets::new(alloc);
    add_fixed(&mut octets, fixed, value)?;
    Ok(octets)
}

// One after another.
fn run_bytes(alloc: Global, fixed: Fixed, values: &[FieldValue]) -> Result<Octets, EncodeFault>
    ensures ok { IfOk result (λ octets. spec.run_bytes (fixed_view fixed) [] (map value_view values.now) ≡ Some octets) }
    ensures err { IfErr result (IsMisfit (spec.run_bytes (fixed_view fixed) [] (map value_view values.now))) }
{
    let mut octets = Octets::new(alloc);
    for value in values {
        add_fixed(&mut octets, fixed, value)?;
    }
    Ok(octets)
}

// In what follows all data of the structure begins at the place `begin`.

fn lay_text(alloc: Global, laid: &mut Laid, begin: usize, text: &Text) -> Result<(), EncodeFault>
    ensures ok { OnOk result (spec.lay_text begin laid.old text.now ≡ Some laid.new) }
    ensures err { IfErr result (IsMisfit (spec.lay_text begin laid.old text.now)) }
{
    // As a `str` the text is known to have no surrogates.
    let _scalars = text.as_str();
    let bytes = utf16_from_text(alloc, text)?;
    laid.point(begin, bytes.as_slice())
}

// The elements of a list, if they are so many.
fn counted_list(count: u64, value: &FieldValue) -> Option<&FieldVal>
    ensures { option_map (λ val. list_of (val_view val.now)) result ≡ option_and_then (spec.counted_list count) (as_elements (value_view value.now)) }
{
    let val = value.as_list()?;
    if val.as_slice().len() as u64 == count {
        Some(val)
    } else {
        None
    }
}

fn lay_run(
    alloc: Global,
    laid: &mut Laid,
    begin: usize,
    fixed: Fixed,
    count: u64,
    value: &FieldValue,
) -> Result<(), EncodeFault>
    ensures ok { OnOk result (spec.lay_run (fixed_view fixed) count begin laid.old (value_view value.now) ≡ Some laid.new) }
    ensures err { IfErr result (IsMisfit (spec.lay_run (fixed_view fixed) count begin laid.old (value_view value.now))) }
{
    let Some(val) = counted_list(count, value) else {
        return Err(EncodeFault::Misfit);
    };
    let bytes = run_bytes(alloc, fixed, val.as_slice())?;
    laid.point_at(begin, bytes.as_slice())
}

fn lay_perhaps(
    alloc: Global,
    laid: &mut Laid,
    begin: usize,
    fixed: Fixed,
    value: &FieldValue,
) -> Result<(), EncodeFault>
    ensures ok { OnOk result (spec.lay_perhaps (fixed_view fixed) begin laid.old (value_view value.now) ≡ Some laid.new) }
    ensures err { IfErr result (IsMisfit (spec.lay_perhaps (fixed_view fixed) begin laid.old (value_view value.now))) }
{
    if let FieldValue::Absent = value {
        return laid.point_at(begin, &[]);
    }
    let bytes = fixed_bytes(alloc, fixed, value)?;
    laid.point_at(begin, bytes.as_slice())
}

#[cycle(lay)]
fn lay_item(
    alloc: Global,
    laid: &mut Laid,
    begin: usize,
    item: &Item,
    value: &FieldValue,
) -> Result<(), EncodeFault>
    ensures ok { OnOk result (spec.lay_item (item_view item.now) begin laid.old (value_view value.now) ≡ Some laid.new) }
    ensures err { IfErr result (IsMisfit (spec.lay_item (item_view item.now) begin laid.old (value_view value.now))) }
{
    match item {
        Item::InPlace(fixed) => laid.add_fixed(*fixed, value),
        Item::Text => match value.as_text() {
            Some(text) => lay_text(alloc, laid, begin, text),
            None => Err(EncodeFault::Misfit),
        },
        Item::Binary => match value.as_octets() {
            Some(octets) => laid.point(begin, octets.as_slice()),
            None => Err(EncodeFault::Misfit),
        },
        Item::Structure(shape) => match value.as_members() {
            Some(members) => {
                let bytes = structure_bytes(alloc, shape, members.as_slice())?;
                laid.point(begin, bytes.as_slice())
            }
            None => Err(EncodeFault::Misfit),
        },
    }
}

#[cycle(lay)]
fn lay_each(
    alloc: Global,
    laid: &mut Laid,
    begin: usize,
    item: &Item,
    values: &[FieldValue],
) -> Result<(), EncodeFault>
    ensures ok { OnOk result (spec.lay_each (spec.lay_item (item_view item.now) begin) laid.old (map value_view values.now) ≡ Some laid.new) }
    ensures err { IfErr result (IsMisfit (spec.lay_each (spec.lay_item (item_view item.now) begin) laid.old (map value_view values.now))) }
{
    for value in values {
        lay_item(alloc, laid, begin, item, value)?;
    }
    Ok(())
}

#[cycle(lay)]
fn lay_form(
    alloc: Global,
    laid: &mut Laid,
    begin: usize,
    form: &Form,
    before: &[FieldValue],
    value: &FieldValue,
) -> Result<(), EncodeFault>
    ensures ok { OnOk result (spec.lay_form (form_view form.now) begin laid.old (map value_view before.now) (value_view value.now) ≡ Some laid.new) }
    ensures err { IfErr result (IsMisfit (spec.lay_form (form_view form.now) begin laid.old (map value_view before.now) (value_view value.now))) }
{
    match form {
        Form::One(item) => lay_item(alloc, laid, begin, item, value),
        Form::Each(place, item) => match counted_list(count_in(before, *place), value) {
            Some(val) => lay_each(alloc, laid, begin, item, val.as_slice()),
            None => Err(EncodeFault::Misfit),
        },
        Form::Run(place, fixed) => lay_run(
            alloc,
            laid,
            begin,
            *fixed,
            count_in(before, *place),
            value,
        ),
        Form::Perhaps(fixed) => lay_perhaps(alloc, laid, begin, *fixed, value),
    }
}

// How many bytes fields of these values take in place, if a `usize` can say it.
fn rooms(fields: &[Field], values: &[FieldValue]) -> Option<usize>
    requires { length fields.now ≡ length values.now }
    ensures some { IfSome result (λ bytes. bytes ≡ spec.rooms (layout_of (map field_view fields.now)) [] (map value_view values.now)) }
    ensures none { IsNone result → 2 ^ 64 ≤ spec.rooms (layout_of (map field_view fields.now)) [] (map value_view values.now) }
{
    let mut bytes: usize = 0;
    for (index, Field(_, form)) in fields.iter().enumerate() {
        bytes = bytes.checked_add(form.room(&values[..index])?)?;
    }
    Some(bytes)
}

// The bytes of a structure.
#[cycle(lay)]
fn structure_bytes(
    alloc: Global,
    shape: &FieldShape,
    values: &[FieldValue],
) -> Result<Octets, EncodeFault>
    ensures ok { IfOk result (λ octets. canon (shape_view shape.now) (map value_view values.now) ≡ Some octets) }
    ensures err { IfErr result (IsMisfit (canon (shape_view shape.now) (map value_view values.now))) }
{
    let fields = shape.0;
    if fields.len() != values.len() {
        return Err(EncodeFault::Misfit);
    }
    let Some(begin) = rooms(fields, values) else {
        return Err(EncodeFault::OutOfMemory);
    };
    let mut laid = Laid::begin(alloc, begin)?;
    for (index, Field(_, form)) in fields.iter().enumerate() {
        let before = &values[..index];
        lay_form(alloc, &mut laid, begin, form, before, &values[index])?;
    }
    Ok(laid.into_octets()?)
}
