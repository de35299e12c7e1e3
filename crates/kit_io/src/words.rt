use std::alloc::{AllocError, Global};
use std::io;

/// What the system says of an error, without the number that stands behind it; nothing where there is no
/// memory for it.
pub fn system_words(alloc: Global, error: io::Error) -> String {
    match words_of(alloc, error) {
        Ok(words) => words,
        Err(AllocError) => String::new(alloc),
    }
}

fn words_of(alloc: Global, error: io::Error) -> Result<String, AllocError> {
    let words = error.to_string(alloc)?;
    String::from_str(alloc, front_of(&words))
}

fn front_of(words: &str) -> &str {
    match words.split_once(" (os error ") {
        Some((front, _)) => front,
        None => words,
    }
}
