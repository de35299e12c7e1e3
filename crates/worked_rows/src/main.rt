//! Runs worked rows of text, and tells each difference between a row and what is found. `tool.rt`, and
//! `story.rt` of `core_rows`, and `modem.rt`, `format.rt`, `tables.rt`, `fragments.rt` and `layout.rt` of
//! `part_rows` say what lines each kind of a row has.
#![tactic(auto)]

mod asked;
mod ran;
mod tool;

use core_rows::{mbim_stories, qmi_stories};
use part_rows::{
    are_joined, are_tables, is_format, is_laid_out, is_mbim_modem, is_qmi_modem, is_split,
};
use row_text::{Place, Row, RowFault, Rows, joined_lines, read_rows, tell};
use std::process::ExitCode;
use std::{env, fs, io};

fn main(rt: HostRuntime) -> io::Result<ExitCode> {
    let mut differ = false;
    for file in env::args(&rt)?.skip(1) {
        differ |= !run_file(&rt, &file)?;
    }
    Ok(if differ {
        ExitCode::FAILURE
    } else {
        ExitCode::SUCCESS
    })
}

// Whether each row of a file is what is found.
fn run_file(rt: &HostRuntime, file: &str) -> io::Result<bool> {
    let text = fs::read_to_string(rt, file)?;
    let lines = joined_lines(rt.alloc(), &text)?;
    match read_rows(rt.alloc(), &lines) {
        Ok(rows) => run_rows(rt, file, &rows),
        Err(fault) => {
            tell(rt, Place { file, number: 0 }, fault);
            Ok(false)
        }
    }
}

fn run_rows(rt: &HostRuntime, file: &str, rows: &Rows<'_>) -> io::Result<bool> {
    let mut differing = 0u64;
    for row in rows.as_slice() {
        let number = row.first.number;
        if !is_as_told(rt, Place { file, number }, rows, row) {
            differing = differing.saturating_add(1);
        }
    }
    let count = rows.as_slice().len();
    println!(rt; "{file}: {count} rows, {differing} differ")?;
    Ok(differing == 0)
}

// Whether a row is what is found. One that can't be run isn't.
fn is_as_told(rt: &HostRuntime, place: Place<'_>, rows: &Rows<'_>, row: &Row<'_>) -> bool {
    match run_row(rt, place, rows, row) {
        Ok(same) => same,
        Err(fault) => {
            tell(rt, place, fault);
            false
        }
    }
}

fn run_row(
    rt: &HostRuntime,
    place: Place<'_>,
    rows: &Rows<'_>,
    row: &Row<'_>,
) -> Result<bool, RowFault> {
    let alloc = rt.alloc();
    match row.first.key {
        "words" => tool::is_as_told(rt, alloc, place, rows, row),
        "story" => qmi_stories(rt, alloc, place, rows, row, None),
        "releasing-story" => qmi_stories(rt, alloc, place, rows, row, Some(60_000)),
        "mbim-story" => mbim_stories(rt, alloc, place, rows, row),
        "qmi-modem" => is_qmi_modem(rt, alloc, place, rows, row),
        "mbim-modem" => is_mbim_modem(rt, alloc, place, rows, row),
        "format" => is_format(rt, alloc, place, rows, row),
        "tables" => are_tables(rt, alloc, place, row),
        "fragments" => are_joined(rt, alloc, place, rows, row),
        "split" => is_split(rt, alloc, place, rows, row),
        "layout" => is_laid_out(rt, alloc, place, rows, row),
        _ => Err(RowFault::new("no kind of a row")),
    }
}
