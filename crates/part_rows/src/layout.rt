use kit_bytes::uuid_at;
use mbim_fields::{FieldShape, FieldVal, decode_fields, encode_fields};
use mbim_services::{Way, layout};
use row_text::{Place, Row, RowFault, Rows, are_bytes, is};
use std::alloc::Global;

/// What a buffer says in the layout of a command. The first line of its row has the bytes of the service's UUID:
///
///     cid: N          way: query, set or done      which buffer it is
///     buffer: BYTES
///     value: VALUE                                 the values that it has
///     fault: FAULT                                 why it has none
///     spelled: BYTES                               what the values are spelled by, if not by the buffer
#[derive(Clone, Copy)]
struct LayoutRow<'a> {
    cid: u32,
    way: Way,
    buffer: &'a str,
    value: Option<&'a str>,
    fault: Option<&'a str>,
    spelled: &'a str,
}

/// Whether a row is what is found. Tells what differs.
pub fn is_laid_out<R: Print>(
    rt: &R,
    alloc: Global,
    place: Place<'_>,
    rows: &Rows<'_>,
    row: &Row<'_>,
) -> Result<bool, RowFault> {
    let told = read_layout_row(row)?;
    let uuid = rows.bytes_of(row.first.value)?;
    if uuid.len() != 16 {
        return Err(RowFault::new("no UUID"));
    }
    let shape = layout(uuid_at(&uuid, 0), told.cid, told.way).ok_or(RowFault::new("no layout"))?;
    let buffer = rows.bytes_of(told.buffer)?;
    match decode_fields(alloc, &shape, &buffer) {
        Ok(val) => {
            let same = is_value(rt, alloc, place, rows, told, &shape, &val);
            drop(val);
            same
        }
        Err(fault) => {
            let found = format!(in alloc; "{fault:?}")?;
            Ok(is(rt, place, "fault", told.fault, Some(found.as_str())))
        }
    }
}

fn read_layout_row<'a>(row: &Row<'a>) -> Result<LayoutRow<'a>, RowFault> {
    let mut told = LayoutRow {
        cid: 0,
        way: Way::Done,
        buffer: "",
        value: None,
        fault: None,
        spelled: "",
    };
    for line in &row.rest {
        let value = line.value;
        match line.key {
            "cid" => told.cid = value.parse::<u32>()?,
            "way" => told.way = way_of(value)?,
            "buffer" => {
                told.buffer = value;
                told.spelled = value;
            }
            "value" => told.value = Some(value),
            "fault" => told.fault = Some(value),
            "spelled" => told.spelled = value,
            _ => return Err(RowFault::new("no key of a row").at(line.number)),
        }
    }
    Ok(told)
}

fn way_of(word: &str) -> Result<Way, RowFault> {
    match word {
        "query" => Ok(Way::Query),
        "set" => Ok(Way::Set),
        "done" => Ok(Way::Done),
        _ => Err(RowFault::new("no way")),
    }
}

// Whether the values are the row's, and are spelled as it says.
fn is_value<R: Print>(
    rt: &R,
    alloc: Global,
    place: Place<'_>,
    rows: &Rows<'_>,
    told: LayoutRow<'_>,
    shape: &FieldShape,
    val: &FieldVal,
) -> Result<bool, RowFault> {
    let found = format!(in alloc; "{val:?}")?;
    let is_told = is(rt, place, "value", told.value, Some(found.as_str()));
    let bytes = rows.bytes_of(told.spelled)?;
    match encode_fields(alloc, shape, val) {
        Ok(spelled) => {
            let is_spelled = are_bytes(rt, place, "spelling", &bytes, spelled.as_slice());
            Ok(is_told && is_spelled)
        }
        Err(_) => Err(RowFault::new("the values aren't spelled")),
    }
}
