use crate::RowFault;
use std::alloc::Global;

/// The words of a text, which stand between spaces, or between quotes.
pub fn words_of(alloc: Global, text: &str) -> Result<Vec<String>, RowFault> {
    let mut words = Vec::new(alloc);
    push_words(alloc, &mut words, text)?;
    Ok(words)
}

fn push_words(alloc: Global, words: &mut Vec<String>, text: &str) -> Result<(), RowFault> {
    let mut is_quoted = true;
    for part in text.split('"') {
        is_quoted = !is_quoted;
        if is_quoted {
            words.push(String::from_str(alloc, part)?)?;
        } else {
            push_unquoted(alloc, words, part)?;
        }
    }
    closed(is_quoted)
}

fn push_unquoted(alloc: Global, words: &mut Vec<String>, text: &str) -> Result<(), RowFault> {
    for word in text.split_whitespace() {
        words.push(String::from_str(alloc, word)?)?;
    }
    Ok(())
}

/// A text that ends between quotes is refused.
pub fn closed(is_quoted: bool) -> Result<(), RowFault> {
    if is_quoted {
        return Err(RowFault::new("an open quote"));
    }
    Ok(())
}
