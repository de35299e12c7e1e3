ghost use Rattle.std.specs.Prelude.{◌≡◌, ◌≤◌, ◌+◌, ◌*◌, ◌<◌, ◌++◌, ◌∷◌, length, map, Ok, Err, [], IfOk, OnOk, IfErr, IfSome, IsNone};
ghost use Rattle.mbim_fields.specs.Layout.{size, width, text, binary};
ghost use Rattle.mbim_fields.specs.Value.{list_of, values_of, room};
ghost use Rattle.mbim_fields.specs.View.{fixed_view, item_view, form_view, shape_view, value_view, val_view};
ghost use Rattle.mbim_fields.specs.Reading as spec;
ghost use Rattle.mbim_fields.specs.Fields.{Fields};
ghost use Rattle.mbim_fields.specs.Footprint.{fixed_footprint, each_footprint, run_footprint, perhaps_footprint, item_footprint, form_footprint, fields_footprint};
ghost use Rattle.mbim_fields.specs.Decoding.{Refuses, Exceeds, Ends, IsRefused, IsWithinLimit, longest_slice};

use crate::layout::total_size;
use crate::memory::{Memory, VALUE_FOOTPRINT};
use crate::value::count_in;
use crate::{Field, FieldFault, FieldShape, FieldVal, FieldValue, Fixed, Form, Item};
use kit_bytes::{Octets, Utf16Fault, text_from_utf16, u32_at, u64_at, uuid_at};
use std::alloc::{AllocError, Global};

/// The values that a buffer has in a layout.
///
/// Values that count as more than 16 MiB are refused with `TooLarge`, since a short buffer can point
/// at the same data again and again.
pub fn decode_fields(
    alloc: Global,
    shape: &FieldShape,
    buffer: &[u8],
) -> Result<FieldVal, FieldFault>
    ensures ok { IfOk result (λ val. Fields (shape_view shape.now) (list_of (val_view val)) buffer.now) }
    ensures fits { IfOk result (λ val. IsWithinLimit (shape_view shape.now) buffer.now) }
    ensures err { IfErr result (IsRefused (shape_view shape.now) buffer.now) }
{
    read_fields(&mut Memory::new(alloc), shape, buffer, 0)
}

// In what follows `whole` is a structure, `base` its place in the buffer, and `at` a place in it.

// What a pair points at: bytes, and their own place in the buffer.
#[derive(Clone, Copy)]
struct Part<'a> {
    bytes: &'a [u8],
    place: usize,
}

// What the pair at a place points at.
fn part_at(whole: &[u8], base: usize, at: usize) -> Result<Part<'_>, FieldFault>
    requires here { at + 8 ≤ length whole.now }
    requires base { base + length whole.now ≤ longest_slice }
    ensures ok { IfOk result (λ part. spec.part_at whole.now base at ≡ Ok (record { bytes = part.bytes.now; place = part.place })) }
    ensures base { IfOk result (λ part. part.place + length part.bytes.now ≤ longest_slice) }
    ensures err { IfErr result (Refuses (spec.part_at whole.now base at)) }
{
    let offset = u32_at(whole, at) as usize;
    let size = u32_at(whole, at + 4) as usize;
    if size == 0 {
        return Ok(Part {
            bytes: &[],
            place: base + at,
        });
    }
    if whole.len() < offset + size {
        return Err(FieldFault::OutOfRange { place: base + at });
    }
    Ok(Part {
        bytes: &whole[offset..offset + size],
        place: base + offset,
    })
}

// Where so many bytes from a place on end, if they end within these.
fn end_within(whole: &[u8], at: usize, size: usize) -> Option<usize>
    ensures some { IfSome result (λ end. (end ≡ at + size) × (end ≤ length whole.now)) }
    ensures none { IsNone result → length whole.now < at + size }
{
    let end = at.checked_add(size)?;
    (end <= whole.len()).then_some(end)
}

// Where a form ends, behind fields of these values, if it ends within these bytes.
fn form_end(whole: &[u8], form: &Form, before: &[FieldValue], at: usize) -> Option<usize>
    ensures some { IfSome result (λ end. (end ≡ at + room (form_view form.now) (map value_view before.now)) × (end ≤ length whole.now)) }
    ensures none { IsNone result → length whole.now < at + room (form_view form.now) (map value_view before.now) }
{
    end_within(whole, at, form.room(before)?)
}

// Where so many end, one after another, if they end within these bytes.
fn run_end(whole: &[u8], fixed: Fixed, count: u64, at: usize) -> Option<usize>
    ensures some { IfSome result (λ end. (end ≡ at + count * size (fixed_view fixed)) × (end ≤ length whole.now)) }
    ensures none { IsNone result → length whole.now < at + count * size (fixed_view fixed) }
{
    end_within(whole, at, total_size(count, fixed.size())?)
}

// Adds a value to a list.
fn push(values: &mut Vec<FieldValue>, value: FieldValue) -> Result<(), AllocError>
    ensures { OnOk result (values.new.items ≡ values.old.items ++ value ∷ []) }
{
    values.push(value)?;
    Ok(())
}

fn octets_at(alloc: Global, whole: &[u8], at: usize, count: usize) -> Result<FieldValue, AllocError>
    requires { at + count ≤ length whole.now }
    ensures { IfOk result (λ value. value_view value ≡ spec.bytes_at whole.now at count) }
{
    Ok(FieldValue::Octets(Octets::from_slice(alloc, &whole[at..at + count])?))
}

// A prefix's length, and behind it an address of so many bytes.
fn prefixed_at(
    alloc: Global,
    whole: &[u8],
    at: usize,
    count: usize,
) -> Result<FieldValue, AllocError>
    requires { at + 4 + count ≤ length whole.now }
    ensures { IfOk result (λ value. value_view value ≡ spec.prefixed_at whole.now at count) }
{
    let prefix = FieldValue::Number(u64::from(u32_at(whole, at)));
    let mut values = Vec::new(alloc);
    push(&mut values, prefix)?;
    push(&mut values, octets_at(alloc, whole, at + 4, count)?)?;
    Ok(FieldValue::Members(FieldVal::from(values)))
}

fn fixed_at(alloc: Global, fixed: Fixed, whole: &[u8], at: usize) -> Result<FieldValue, AllocError>
    requires { at + size (fixed_view fixed) ≤ length whole.now }
    ensures { IfOk result (λ value. value_view value ≡ spec.fixed_at (fixed_view fixed) whole.now at) }
{
    match fixed {
        Fixed::U32 => Ok(FieldValue::Number(u64::from(u32_at(whole, at)))),
        Fixed::U64 => Ok(FieldValue::Number(u64_at(whole, at))),
        Fixed::Uuid => Ok(FieldValue::Uuid(uuid_at(whole, at))),
        Fixed::Ipv4 => octets_at(alloc, whole, at, 4),
        Fixed::Ipv6 => octets_at(alloc, whole, at, 16),
        Fixed::PrefixedIpv4 => prefixed_at(alloc, whole, at, 4),
        Fixed::PrefixedIpv6 => prefixed_at(alloc, whole, at, 16),
    }
}

// So many, one after another.
fn run_at(
    alloc: Global,
    fixed: Fixed,
    count: usize,
    whole: &[u8],
    at: usize,
) -> Result<FieldVal, AllocError>
    requires { at + count * size (fixed_view fixed) ≤ length whole.now }
    ensures { IfOk result (λ val. val_view val ≡ values_of (spec.run_at (fixed_view fixed) count whole.now at)) }
{
    let mut values = Vec::new(alloc);
    let mut place = at;
    for _ in 0..count {
        push(&mut values, fixed_at(alloc, fixed, whole, place)?)?;
        place += fixed.size();
    }
    Ok(FieldVal::from(values))
}

// The text that bytes spell, to which the pair at a place of the buffer points.
fn text_in(alloc: Global, bytes: &[u8], place: usize) -> Result<FieldValue, FieldFault>
    ensures ok { IfOk result (λ value. spec.text_in bytes.now place ≡ Ok (value_view value)) }
    ensures err { IfErr result (Refuses (spec.text_in bytes.now place)) }
{
    match text_from_utf16(alloc, bytes) {
        Ok(text) => Ok(FieldValue::Text(text)),
        Err(Utf16Fault::Lone { .. }) => Err(FieldFault::Lone { place }),
        Err(Utf16Fault::OutOfMemory) => Err(FieldFault::OutOfMemory),
    }
}

fn read_fixed(
    memory: &mut Memory,
    fixed: Fixed,
    whole: &[u8],
    at: usize,
) -> Result<FieldValue, FieldFault>
    requires { at + size (fixed_view fixed) ≤ length whole.now }
    ensures ok { IfOk result (λ value. value_view value ≡ spec.fixed_at (fixed_view fixed) whole.now at) }
    ensures left { IfOk result (λ _. memory.new.left + fixed_footprint (fixed_view fixed) ≡ memory.old.left) }
    ensures err { IfErr result (Exceeds (fixed_footprint (fixed_view fixed)) memory.old.left) }
{
    memory.take(fixed.footprint())?;
    Ok(fixed_at(memory.alloc(), fixed, whole, at)?)
}

fn read_text(
    memory: &mut Memory,
    whole: &[u8],
    base: usize,
    at: usize,
) -> Result<FieldValue, FieldFault>
    requires here { at + 8 ≤ length whole.now }
    requires base { base + length whole.now ≤ longest_slice }
    ensures ok { IfOk result (λ value. spec.read_item text whole.now base at ≡ Ok (value_view value)) }
    ensures left { IfOk result (λ _. memory.new.left + item_footprint text whole.now base at ≡ memory.old.left) }
    ensures err { IfErr result (Ends (spec.read_item text whole.now base at) (item_footprint text whole.now base at) memory.old.left) }
{
    let part = part_at(whole, base, at)?;
    memory.take(VALUE_FOOTPRINT + part.bytes.len())?;
    text_in(memory.alloc(), part.bytes, base + at)
}

fn read_binary(
    memory: &mut Memory,
    whole: &[u8],
    base: usize,
    at: usize,
) -> Result<FieldValue, FieldFault>
    requires here { at + 8 ≤ length whole.now }
    requires base { base + length whole.now ≤ longest_slice }
    ensures ok { IfOk result (λ value. spec.read_item binary whole.now base at ≡ Ok (value_view value)) }
    ensures left { IfOk result (λ _. memory.new.left + item_footprint binary whole.now base at ≡ memory.old.left) }
    ensures err { IfErr result (Ends (spec.read_item binary whole.now base at) (item_footprint binary whole.now base at) memory.old.left) }
{
    let part = part_at(whole, base, at)?;
    memory.take(VALUE_FOOTPRINT + part.bytes.len())?;
    Ok(FieldValue::Octets(Octets::from_slice(memory.alloc(), part.bytes)?))
}

#[cycle(read)]
fn read_item(
    memory: &mut Memory,
    item: &Item,
    whole: &[u8],
    base: usize,
    at: usize,
) -> Result<FieldValue, FieldFault>
    requires here { at + width (item_view item.now) ≤ length whole.now }
    requires base { base + length whole.now ≤ longest_slice }
    ensures ok { IfOk result (λ value. spec.read_item (item_view item.now) whole.now base at ≡ Ok (value_view value)) }
    ensures left { IfOk result (λ _. memory.new.left + item_footprint (item_view item.now) whole.now base at ≡ memory.old.left) }
    ensures err { IfErr result (Ends (spec.read_item (item_view item.now) whole.now base at) (item_footprint (item_view item.now) whole.now base at) memory.old.left) }
{
    match item {
        Item::InPlace(fixed) => read_fixed(memory, *fixed, whole, at),
        Item::Text => read_text(memory, whole, base, at),
        Item::Binary => read_binary(memory, whole, base, at),
        Item::Structure(shape) => {
            let part = part_at(whole, base, at)?;
            memory.take(VALUE_FOOTPRINT)?;
            let val = read_fields(memory, shape, part.bytes, part.place)?;
            Ok(FieldValue::Members(val))
        }
    }
}

// So many, one after another.
#[cycle(read)]
fn read_each(
    memory: &mut Memory,
    item: &Item,
    count: usize,
    whole: &[u8],
    base: usize,
    at: usize,
) -> Result<FieldVal, FieldFault>
    requires here { at + count * width (item_view item.now) ≤ length whole.now }
    requires base { base + length whole.now ≤ longest_slice }
    ensures ok { IfOk result (λ val. spec.read_each (spec.read_item (item_view item.now) whole.now base) (width (item_view item.now)) count at [] ≡ Ok (list_of (val_view val))) }
    ensures left { IfOk result (λ _. memory.new.left + each_footprint (spec.read_item (item_view item.now) whole.now base) (item_footprint (item_view item.now) whole.now base) (width (item_view item.now)) count at ≡ memory.old.left) }
    ensures err { IfErr result (Ends (spec.read_each (spec.read_item (item_view item.now) whole.now base) (width (item_view item.now)) count at []) (each_footprint (spec.read_item (item_view item.now) whole.now base) (item_footprint (item_view item.now) whole.now base) (width (item_view item.now)) count at) memory.old.left) }
{
    let mut values = Vec::new(memory.alloc());
    let mut place = at;
    for _ in 0..count {
        let value = read_item(memory, item, whole, base, place)?;
        push(&mut values, value)?;
        place += item.width();
    }
    Ok(FieldVal::from(values))
}

// What the offset at a place points at: so many, one after another.
fn read_run(
    memory: &mut Memory,
    fixed: Fixed,
    count: u64,
    whole: &[u8],
    base: usize,
    at: usize,
) -> Result<FieldValue, FieldFault>
    requires here { at + 4 ≤ length whole.now }
    requires base { base + length whole.now ≤ longest_slice }
    ensures ok { IfOk result (λ value. spec.read_run (fixed_view fixed) count whole.now base at ≡ Ok (value_view value)) }
    ensures left { IfOk result (λ _. memory.new.left + run_footprint (fixed_view fixed) count whole.now base at ≡ memory.old.left) }
    ensures err { IfErr result (Ends (spec.read_run (fixed_view fixed) count whole.now base at) (run_footprint (fixed_view fixed) count whole.now base at) memory.old.left) }
{
    if count == 0 {
        memory.take(VALUE_FOOTPRINT)?;
        return Ok(FieldValue::List(FieldVal::from(Vec::new(memory.alloc()))));
    }
    let offset = u32_at(whole, at) as usize;
    if run_end(whole, fixed, count, offset).is_none() {
        return Err(FieldFault::OutOfRange { place: base + at });
    }
    let count = count as usize;
    memory.take_list(count, fixed.footprint())?;
    Ok(FieldValue::List(run_at(memory.alloc(), fixed, count, whole, offset)?))
}

// What the offset at a place points at, unless it is 0.
fn read_perhaps(
    memory: &mut Memory,
    fixed: Fixed,
    whole: &[u8],
    base: usize,
    at: usize,
) -> Result<FieldValue, FieldFault>
    requires here { at + 4 ≤ length whole.now }
    requires base { base + length whole.now ≤ longest_slice }
    ensures ok { IfOk result (λ value. spec.read_perhaps (fixed_view fixed) whole.now base at ≡ Ok (value_view value)) }
    ensures left { IfOk result (λ _. memory.new.left + perhaps_footprint (fixed_view fixed) whole.now base at ≡ memory.old.left) }
    ensures err { IfErr result (Ends (spec.read_perhaps (fixed_view fixed) whole.now base at) (perhaps_footprint (fixed_view fixed) whole.now base at) memory.old.left) }
{
    let offset = u32_at(whole, at) as usize;
    if offset == 0 {
        memory.take(VALUE_FOOTPRINT)?;
        return Ok(FieldValue::Absent);
    }
    if whole.len() < offset + fixed.size() {
        return Err(FieldFault::OutOfRange { place: base + at });
    }
    read_fixed(memory, fixed, whole, offset)
}

#[cycle(read)]
fn read_form(
    memory: &mut Memory,
    form: &Form,
    before: &[FieldValue],
    whole: &[u8],
    base: usize,
    at: usize,
) -> Result<FieldValue, FieldFault>
    requires here { at + room (form_view form.now) (map value_view before.now) ≤ length whole.now }
    requires base { base + length whole.now ≤ longest_slice }
    ensures ok { IfOk result (λ value. spec.read_form (form_view form.now) whole.now base at (map value_view before.now) ≡ Ok (value_view value)) }
    ensures left { IfOk result (λ _. memory.new.left + form_footprint (form_view form.now) whole.now base at (map value_view before.now) ≡ memory.old.left) }
    ensures err { IfErr result (Ends (spec.read_form (form_view form.now) whole.now base at (map value_view before.now)) (form_footprint (form_view form.now) whole.now base at (map value_view before.now)) memory.old.left) }
{
    match form {
        Form::One(item) => read_item(memory, item, whole, base, at),
        Form::Each(place, item) => {
            let count = count_in(before, *place) as usize;
            memory.take(VALUE_FOOTPRINT)?;
            Ok(FieldValue::List(read_each(memory, item, count, whole, base, at)?))
        }
        Form::Run(place, fixed) => read_run(
            memory,
            *fixed,
            count_in(before, *place),
            whole,
            base,
            at,
        ),
        Form::Perhaps(fixed) => read_perhaps(memory, *fixed, whole, base, at),
    }
}

#[cycle(read)]
fn read_fields(
    memory: &mut Memory,
    shape: &FieldShape,
    whole: &[u8],
    base: usize,
) -> Result<FieldVal, FieldFault>
    requires { base + length whole.now ≤ longest_slice }
    ensures ok { IfOk result (λ val. spec.read_fields (shape_view shape.now) whole.now base 0 [] ≡ Ok (list_of (val_view val))) }
    ensures left { IfOk result (λ _. memory.new.left + fields_footprint (shape_view shape.now) whole.now base 0 [] ≡ memory.old.left) }
    ensures err { IfErr result (Ends (spec.read_fields (shape_view shape.now) whole.now base 0 []) (fields_footprint (shape_view shape.now) whole.now base 0 []) memory.old.left) }
{
    let mut values = Vec::new(memory.alloc());
    let mut at = 0;
    for Field(_, form) in shape.0 {
        let Some(end) = form_end(whole, form, &values, at) else {
            return Err(FieldFault::OutOfRange { place: base + at });
        };
        let value = read_form(memory, form, &values, whole, base, at)?;
        push(&mut values, value)?;
        at = end;
    }
    Ok(FieldVal::from(values))
}
