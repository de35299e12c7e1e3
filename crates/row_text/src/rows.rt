use crate::RowFault;
use crate::words::closed;
use std::alloc::{AllocError, Global};

// Stands before each line, once lines are joined: ASCII's record separator.
const BEGINS: char = '\u{1e}';

/// A line `KEY: VALUE`, with the number that it has in its file.
#[derive(Clone, Copy)]
pub struct Line<'a> {
    pub number: usize,
    pub key: &'a str,
    pub value: &'a str,
}

/// Lines that stand together. The key of the first one says what kind of a row they are.
#[derive(Drop)]
pub struct Row<'a> {
    pub first: Line<'a>,
    pub rest: Vec<Line<'a>>,
}

// Bytes that have a name.
#[derive(Drop)]
struct Message<'a> {
    name: &'a str,
    bytes: Vec<u8>,
}

/// The rows of a file, and the messages that it names.
#[derive(Drop)]
pub struct Rows<'a> {
    alloc: Global,
    messages: Vec<Message<'a>>,
    rows: Vec<Row<'a>>,
}

/// The text of a file, with each line that begins with a space joined to the line before it.
pub fn joined_lines(alloc: Global, text: &str) -> Result<String, AllocError> {
    let mut joined = String::new(alloc);
    push_lines(&mut joined, text)?;
    Ok(joined)
}

fn push_lines(joined: &mut String, text: &str) -> Result<(), AllocError> {
    for line in text.lines() {
        match line.strip_prefix(' ') {
            Some(more) => push_behind(joined, '\n', more)?,
            None => push_behind(joined, BEGINS, line)?,
        }
    }
    Ok(())
}

fn push_behind(joined: &mut String, sign: char, line: &str) -> Result<(), AllocError> {
    joined.push(sign)?;
    joined.push_str(line)
}

/// Reads the rows of a file, whose lines are joined.
///
/// A line is `KEY: VALUE`, and one that begins with a space goes on with the value before it behind
/// a line's end, without that space. A line that begins with `#` says nothing. An empty line stands
/// between rows. `message NAME: BYTES` belongs to no row: the bytes go by that name from there on, and
/// those of the text by that of `text NAME: TEXT`.
pub fn read_rows(alloc: Global, joined: &str) -> Result<Rows<'_>, RowFault> {
    let mut rows = Rows {
        alloc,
        messages: Vec::new(alloc),
        rows: Vec::new(alloc),
    };
    rows.add_lines(joined)?;
    Ok(rows)
}

impl<'a> Rows<'a> {
    fn add_lines(&mut self, joined: &'a str) -> Result<(), RowFault> {
        let mut begins = true;
        let mut number = 0usize;
        for line in joined.split(BEGINS) {
            if line.is_empty() {
                begins = true;
            } else if !line.starts_with('#') {
                if let Err(fault) = self.add_line(number, line, begins) {
                    return Err(fault.at(number));
                }
                begins = false;
            }
            number = number.saturating_add(line.split('\n').count());
        }
        Ok(())
    }

    fn add_line(&mut self, number: usize, line: &'a str, begins: bool) -> Result<(), RowFault> {
        let (key, value) = line.split_once(':').ok_or(RowFault::new("no key"))?;
        let value = value.strip_prefix(' ').unwrap_or(value);
        if let Some(name) = key.strip_prefix("message ") {
            return self.name(name, self.bytes_of(value)?);
        }
        if let Some(name) = key.strip_prefix("text ") {
            return self.name(name, Vec::from_slice(self.alloc, value.as_bytes())?);
        }
        self.add(Line { number, key, value }, begins)
    }

    fn name(&mut self, name: &'a str, bytes: Vec<u8>) -> Result<(), RowFault> {
        self.messages.push(Message { name, bytes })?;
        Ok(())
    }

    fn add(&mut self, line: Line<'a>, begins: bool) -> Result<(), RowFault> {
        if begins {
            let rest = Vec::new(self.alloc);
            self.rows.push(Row { first: line, rest })?;
            return Ok(());
        }
        let Some(row) = self.rows.last_mut() else {
            return Err(RowFault::new("no row before it"));
        };
        row.rest.push(line)?;
        Ok(())
    }

    pub fn as_slice(&self) -> &[Row<'a>] {
        &self.rows
    }

    /// The bytes that a text spells: each by two hex digits, with `*N` behind it where it stands
    /// N times, or as they are between quotes, or those of a message by its name.
    pub fn bytes_of(&self, text: &str) -> Result<Vec<u8>, RowFault> {
        let mut bytes = Vec::new(self.alloc);
        self.push_bytes(&mut bytes, text)?;
        Ok(bytes)
    }

    fn push_bytes(&self, bytes: &mut Vec<u8>, text: &str) -> Result<(), RowFault> {
        let mut is_quoted = true;
        for part in text.split('"') {
            is_quoted = !is_quoted;
            if is_quoted {
                bytes.extend_from_slice(part.as_bytes())?;
            } else {
                self.push_words(bytes, part)?;
            }
        }
        closed(is_quoted)
    }

    fn push_words(&self, bytes: &mut Vec<u8>, text: &str) -> Result<(), RowFault> {
        for word in text.split_whitespace() {
            match self.message(word) {
                Some(message) => bytes.extend_from_slice(message)?,
                None => push_byte(bytes, word)?,
            }
        }
        Ok(())
    }

    fn message(&self, name: &str) -> Option<&[u8]> {
        for message in &self.messages {
            if message.name == name {
                return Some(&message.bytes);
            }
        }
        None
    }
}

fn push_byte(bytes: &mut Vec<u8>, word: &str) -> Result<(), RowFault> {
    let (digits, count) = word.split_once('*').unwrap_or((word, "1"));
    if digits.len() != 2 {
        return Err(RowFault::new("no byte and no message"));
    }
    let byte = u8::from_str_radix(digits, 16)?;
    for _ in 0..count.parse::<u32>()? {
        bytes.push(byte)?;
    }
    Ok(())
}
