use crate::fault::RowFault;
use crate::rows::{Line, Row};
use kit_io::Log;
use std::alloc::Global;
use std::fmt::{self, Debug};

/// A line of a file.
#[derive(Clone, Copy)]
pub struct Place<'a> {
    pub file: &'a str,
    pub number: usize,
}

impl<'a> Place<'a> {
    /// The place of a line of the same file.
    pub fn of(self, line: &Line<'_>) -> Place<'a> {
        Place {
            file: self.file,
            number: line.number,
        }
    }
}

impl fmt::Display for Place<'_> {
    fn fmt<W: fmt::Write>(&self, f: &mut fmt::Formatter<W>) -> fmt::Result {
        write!(f, "{}:{}", self.file, self.number)
    }
}

/// Whether a part of a row is what was found. Tells what differs.
pub fn is<R: Print, T: Debug + PartialEq + Drop>(
    rt: &R,
    place: Place<'_>,
    part: &str,
    told: T,
    found: T,
) -> bool {
    let same = told == found;
    if !same {
        let _ = println!(rt; "{place}: {part} is {found:?}, not {told:?}");
    }
    same
}

/// Bytes by two hex digits each.
#[derive(Clone, Copy)]
pub struct Spelled<'a>(pub &'a [u8]);

impl fmt::Display for Spelled<'_> {
    fn fmt<W: fmt::Write>(&self, f: &mut fmt::Formatter<W>) -> fmt::Result {
        for byte in self.0 {
            write!(f, " {byte:02X}")?;
        }
        Ok(())
    }
}

/// Whether bytes are those that were found. Tells what differs.
pub fn are_bytes<R: Print>(
    rt: &R,
    place: Place<'_>,
    part: &str,
    told: &[u8],
    found: &[u8],
) -> bool {
    let same = told == found;
    if !same {
        let (told, found) = (Spelled(told), Spelled(found));
        let _ = println!(rt; "{place}: {part} is{found}, not{told}");
    }
    same
}

/// Tells why a row isn't read or can't be run.
pub fn tell<R: Print>(rt: &R, place: Place<'_>, fault: RowFault) {
    let number = fault.number.unwrap_or(place.number);
    let _ = println!(rt; "{}:{number}: {}", place.file, fault.reason);
}

/// The values of the lines with this key, each with a line's end, and of those with this key and `begins`,
/// without it.
pub fn lines_of(alloc: Global, row: &Row<'_>, key: &str) -> Result<String, RowFault> {
    let mut text = String::new(alloc);
    push_lines(&mut text, row, key)?;
    Ok(text)
}

fn push_lines(text: &mut String, row: &Row<'_>, key: &str) -> Result<(), RowFault> {
    for line in &row.rest {
        if line.key == key {
            text.push_str(line.value)?;
            text.push('\n')?;
        } else if line.key.strip_suffix(" begins") == Some(key) {
            text.push_str(line.value)?;
        }
    }
    Ok(())
}

/// Bytes as text.
pub fn text_of(bytes: &[u8]) -> &str {
    str::from_utf8(bytes).unwrap_or("no text")
}

/// Which note of a log isn't as it is told, if one isn't.
pub fn differs_at<K: Copy + PartialEq + Drop>(
    log: &Log<K>,
    told: &[(K, Vec<u8>)],
) -> Option<usize> {
    for (at, (kind, bytes)) in told.iter().enumerate() {
        if log.at(at) != Some((*kind, bytes.as_slice())) {
            return Some(at);
        }
    }
    (log.len() != Some(told.len())).then_some(told.len())
}
