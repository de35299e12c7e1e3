ghost use Rattle.std.specs.Prelude.{IfOk, IfSome};
ghost use Rattle.message_tables.specs.View.{messages_in};
ghost use Rattle.message_tables.specs.WellMade.{AreSound};
ghost use Rattle.qmi_shapes.specs.View.{shape_view};
ghost use Rattle.qmi_shapes.specs.WellMade.{IsWellMade};

use kit_bytes::{Octets, Text};
use message_tables::{Tables, read_tables};
use qmi_shapes::Shape;
use qmi_values::{EncodeFault, Val, decode, encode};
use qmicli_print::print_field;
use row_text::{Place, Row, RowFault, Rows, are_bytes, is, lines_of, text_of};
use std::alloc::Global;

/// What stands behind `"format":` in a description, and what bytes spell in that format:
///
///     bytes: BYTES                     value: VALUE       the value, which the bytes spell
///     fault: FAULT                     why they spell none
///     misfits: FORMAT                  a format in which no bytes spell the value
///     name: NAME      level: N         how the value is printed
///     printed in: FORMAT               in place of its own format
///     out: LINE                        what is printed then
#[derive(Clone, Copy)]
struct FormatRow<'a> {
    row: &'a Row<'a>,
    bytes: &'a str,
    value: Option<&'a str>,
    fault: Option<&'a str>,
    name: &'a str,
    level: u8,
    printed_in: Option<&'a str>,
}

/// Whether a row is what is found. Tells what differs.
pub fn is_format<R: Print>(
    rt: &R,
    alloc: Global,
    place: Place<'_>,
    rows: &Rows<'_>,
    row: &Row<'_>,
) -> Result<bool, RowFault> {
    let told = read_format_row(row)?;
    let bytes = rows.bytes_of(told.bytes)?;
    let tables = described(alloc, row.first.value)?;
    let same = are_read_so(rt, alloc, place, told, &bytes, &tables);
    drop(tables);
    same
}

fn read_format_row<'a>(row: &'a Row<'a>) -> Result<FormatRow<'a>, RowFault> {
    let mut told = FormatRow {
        row,
        bytes: "",
        value: None,
        fault: None,
        name: "",
        level: 0,
        printed_in: None,
    };
    for line in &row.rest {
        let value = line.value;
        match line.key {
            "bytes" => told.bytes = value,
            "value" => told.value = Some(value),
            "fault" => told.fault = Some(value),
            "name" => told.name = value,
            "level" => told.level = value.parse::<u8>()?,
            "printed in" => told.printed_in = Some(value),
            "misfits" | "out" => {}
            _ => return Err(RowFault::new("no key of a row").at(line.number)),
        }
    }
    Ok(told)
}

// Whether bytes are read as the row says, in the format that is described.
fn are_read_so<R: Print>(
    rt: &R,
    alloc: Global,
    place: Place<'_>,
    told: FormatRow<'_>,
    bytes: &[u8],
    tables: &Tables,
) -> Result<bool, RowFault>
    requires { AreSound (messages_in tables.now) }
{
    let shape = shape_in(tables).ok_or(RowFault::new("no format"))?;
    match decode(alloc, shape, bytes) {
        Ok(val) => {
            let same = is_value(rt, alloc, place, told, bytes, shape, &val);
            drop(val);
            same
        }
        Err(fault) => {
            let found = format!(in alloc; "{fault:?}")?;
            Ok(is(rt, place, "fault", told.fault, Some(found.as_str())))
        }
    }
}

// The tables of a message with one TLV of this format.
fn described(alloc: Global, format: &str) -> Result<Tables, RowFault>
    ensures { IfOk result (λ tables. AreSound (messages_in tables)) }
{
    let text = format!(in alloc;
        r#"[{{"type": "Message", "name": "A", "service": "DMS", "id": "0x0001", "output": [{{"name": "A", "id": "0x01", "format": {format}}}]}}]"#
    )?;
    let text = text.as_bytes();
    if text.len() > 16_777_216 {
        return Err(RowFault::new("too long a format"));
    }
    match read_tables(alloc, text) {
        Ok(tables) => Ok(tables),
        Err(_) => Err(RowFault::new("no description")),
    }
}

// The shape of the first TLV of the first message.
fn shape_in(tables: &Tables) -> Option<&Shape>
    requires { AreSound (messages_in tables.now) }
    ensures { IfSome result (λ shape. IsWellMade (shape_view shape.now)) }
{
    if tables.len() == 0 {
        return None;
    }
    let tlv = tables.at(0).output.as_slice().first()?;
    Some(&tlv.shape)
}

// Whether the value is the row's, is spelled and isn't as the row says, and is printed so.
fn is_value<R: Print>(
    rt: &R,
    alloc: Global,
    place: Place<'_>,
    told: FormatRow<'_>,
    bytes: &[u8],
    shape: &Shape,
    val: &Val,
) -> Result<bool, RowFault>
    requires { IsWellMade (shape_view shape.now) }
{
    let is_told = is_shown(rt, alloc, place, told.value, val)?;
    let is_spelled = is_spelled(rt, alloc, place, bytes, shape, val)?;
    let misfits = is_misfit(rt, alloc, place, told.row, val)?;
    let is_printed = told.name.is_empty() || is_printed(rt, alloc, place, told, shape, val)?;
    Ok(is_told && is_spelled && misfits && is_printed)
}

fn is_shown<R: Print>(
    rt: &R,
    alloc: Global,
    place: Place<'_>,
    told: Option<&str>,
    val: &Val,
) -> Result<bool, RowFault> {
    let found = format!(in alloc; "{val:?}")?;
    Ok(is(rt, place, "value", told, Some(found.as_str())))
}

fn is_spelled<R: Print>(
    rt: &R,
    alloc: Global,
    place: Place<'_>,
    bytes: &[u8],
    shape: &Shape,
    val: &Val,
) -> Result<bool, RowFault>
    requires { IsWellMade (shape_view shape.now) }
{
    match encode(alloc, shape, val) {
        Ok(spelled) => Ok(are_bytes(rt, place, "spelling", bytes, spelled.as_slice())),
        Err(_) => Err(RowFault::new("the value isn't spelled")),
    }
}

fn is_misfit<R: Print>(
    rt: &R,
    alloc: Global,
    place: Place<'_>,
    row: &Row<'_>,
    val: &Val,
) -> Result<bool, RowFault> {
    let mut same = true;
    for line in &row.rest {
        if line.key == "misfits" {
            let tables = described(alloc, line.value)?;
            let found = fault_in(alloc, &tables, val);
            drop(tables);
            same &= is(rt, place, "misfits", Some(EncodeFault::Misfit), found);
        }
    }
    Ok(same)
}

// Why a value isn't spelled in the format that is described.
fn fault_in(alloc: Global, tables: &Tables, val: &Val) -> Option<EncodeFault>
    requires { AreSound (messages_in tables.now) }
{
    let shape = shape_in(tables)?;
    encode(alloc, shape, val).err()
}

fn is_printed<R: Print>(
    rt: &R,
    alloc: Global,
    place: Place<'_>,
    told: FormatRow<'_>,
    shape: &Shape,
    val: &Val,
) -> Result<bool, RowFault> {
    let mut text = Octets::new(alloc);
    match told.printed_in {
        Some(format) => print_in(alloc, &mut text, told, format, val)?,
        None => print(alloc, &mut text, told, shape, val)?,
    }
    let lines = lines_of(alloc, told.row, "out")?;
    let found = text_of(text.as_slice());
    Ok(is(rt, place, "out", lines.as_str(), found))
}

// Prints a value in another format.
fn print_in(
    alloc: Global,
    text: &mut Octets,
    told: FormatRow<'_>,
    format: &str,
    val: &Val,
) -> Result<(), RowFault> {
    let tables = described(alloc, format)?;
    let printed = match shape_in(&tables) {
        Some(shape) => print(alloc, text, told, shape, val),
        None => Err(RowFault::new("no format")),
    };
    drop(tables);
    printed
}

fn print(
    alloc: Global,
    text: &mut Octets,
    told: FormatRow<'_>,
    shape: &Shape,
    val: &Val,
) -> Result<(), RowFault> {
    let name = Text::from_str(alloc, told.name)?;
    Ok(print_field(alloc, text, told.level, &name, shape, val)?)
}
