//! The default alphabet of short messages: texts as codes of 7 bits, both ways, and packed in octets.
#![tactic(auto)]

mod alphabet;
mod codes;
mod laws;
mod packing;

pub use alphabet::{ALPHABET, ESCAPE, EXTENSION};
pub use codes::{CodeFault, code_count, codes_of, push_char, text_of_codes};
pub use laws::{
    a_packed_text, codes_are_read_back, codes_are_small, codes_are_written,
    packed_codes_are_unpacked, the_alphabet, the_extension, what_has_no_codes,
};
pub use packing::{MOST_CODES, UnpackFault, pack, unpack};
