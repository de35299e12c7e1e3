ghost use Rattle.std.specs.Prelude.{◌≡◌, ◌<◌, ◌≤◌, ◌∷◌, length, take, drop, IfOk};
ghost use Rattle.message_tables.specs.Comments.{lines_of, is_comment, json_text};

use std::alloc::{AllocError, Global};

/// The text without its comment lines, those whose first bytes behind blanks are `//`.
pub fn without_comments(alloc: Global, text: &[u8]) -> Result<Vec<u8>, AllocError>
    ensures { IfOk result (λ kept. kept.items ≡ json_text text.now) }
{
    let mut kept = Vec::with_capacity(alloc, text.len())?;
    let mut rest = text;
    while !rest.is_empty() {
        let (line, others) = rest.split_at(line_length(rest));
        if !is_comment(line) {
            kept.extend_from_slice(line)?;
        }
        rest = others;
    }
    Ok(kept)
}

// How many bytes the first line has, its line feed among them.
fn line_length(text: &[u8]) -> usize
    requires { 0 < length text.now }
    ensures some { 0 < result }
    ensures within { result ≤ length text.now }
    ensures splits { lines_of text.now ≡ take result text.now ∷ lines_of (drop result text.now) }
{
    for (index, byte) in text.iter().enumerate() {
        if *byte == b'\n' {
            return index + 1;
        }
    }
    text.len()
}

fn is_comment(line: &[u8]) -> bool
    ensures { result ≡ is_comment line.now }
{
    for (index, byte) in line.iter().enumerate() {
        if *byte != b' ' && *byte != b'\t' {
            return line[index..].starts_with(b"//");
        }
    }
    false
}
