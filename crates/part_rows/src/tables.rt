use message_tables::{Tables, read_tables};
use qmi_services::built_in;
use row_text::{Place, Row, RowFault, is};
use std::alloc::Global;

/// Whether the messages that a text describes, or the built-in ones, are those of a row:
///
///     count: N                                 how many there are
///     has SERVICE ID KIND: NAME, M in, N out   the one that is found by these, or none
///     output N: TLVS                           those of the answer or the indication of message N
///
/// Tells what differs.
pub fn are_tables<R: Print>(
    rt: &R,
    alloc: Global,
    place: Place<'_>,
    row: &Row<'_>,
) -> Result<bool, RowFault> {
    let tables = tables_of(alloc, row.first.value)?;
    let same = are_as_told(rt, alloc, place, row, &tables);
    drop(tables);
    same
}

fn are_as_told<R: Print>(
    rt: &R,
    alloc: Global,
    place: Place<'_>,
    row: &Row<'_>,
    tables: &Tables,
) -> Result<bool, RowFault> {
    let mut same = true;
    for line in &row.rest {
        match found(alloc, tables, line.key) {
            Ok(text) => same &= is(rt, place.of(line), line.key, line.value, text.as_str()),
            Err(fault) => return Err(fault.at(line.number)),
        }
    }
    Ok(same)
}

fn tables_of(alloc: Global, text: &str) -> Result<Tables, RowFault> {
    if text == "built in" {
        return Ok(built_in(alloc)?);
    }
    let text = text.as_bytes();
    if text.len() > 16_777_216 {
        return Err(RowFault::new("too long a description"));
    }
    read_tables(alloc, text)
        .ok()
        .ok_or(RowFault::new("no description"))
}

fn found(alloc: Global, tables: &Tables, key: &str) -> Result<String, RowFault> {
    if key == "count" {
        return Ok(format!(in alloc; "{}", tables.len())?);
    }
    if let Some(key) = key.strip_prefix("has ") {
        return message(alloc, tables, key);
    }
    match key.strip_prefix("output ") {
        Some(index) => output(alloc, tables, index.parse::<usize>()?),
        None => Err(RowFault::new("no key of a row")),
    }
}

fn message(alloc: Global, tables: &Tables, key: &str) -> Result<String, RowFault> {
    let Some((service, key)) = key.split_once(' ') else {
        return Err(RowFault::new("no id"));
    };
    let Some((id, kind)) = key.split_once(' ') else {
        return Err(RowFault::new("no kind"));
    };
    let service = service.parse::<u8>()?;
    let id = u16::from_str_radix(id, 16)?;
    let Some(message) = tables.message(service, id, kind == "indication") else {
        return Ok(String::from_str(alloc, "none")?);
    };
    let name = message.name.as_str();
    let input = message.input.as_slice().len();
    let output = message.output.as_slice().len();
    Ok(format!(in alloc; "{name}, {input} in, {output} out")?)
}

fn output(alloc: Global, tables: &Tables, index: usize) -> Result<String, RowFault> {
    if index >= tables.len() {
        return Err(RowFault::new("no message of this number"));
    }
    Ok(format!(in alloc; "{:?}", tables.at(index).output.as_slice())?)
}
