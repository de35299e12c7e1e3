//! Numbers in bytes, the parts of a stream, and small types over lists of bytes and of characters.
#![tactic(auto)]

mod buffer;
mod conn;
mod kind;
mod laws;
mod numbers;
mod octets;
pub mod services;
mod short;
mod span;
mod text;
mod utf16;
mod uuids;

pub use buffer::append;
pub use conn::ConnId;
pub use kind::Kind;
pub use laws::{all_takes_singles_in, bytes_are_given_back, characters_are_given_back};
pub use numbers::{u16_at, u16_bytes, u32_at, u32_bytes, u64_at};
pub use octets::Octets;
pub use short::{
    LONGEST_PATH, LONGEST_SHORT_OCTETS, LONGEST_SHORT_TEXT, PathText, ShortOctets, ShortText,
};
pub use span::{Cut, Span};
pub use text::Text;
pub use utf16::{Utf16Fault, is_utf16, text_from_utf16, utf16_from_text};
pub use uuids::uuid_at;
