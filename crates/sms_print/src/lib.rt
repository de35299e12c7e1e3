//! The text in which short messages are printed.
#![tactic(auto)]

mod decoding;
pub mod examples;
mod joined;
mod lines;
mod messages;
mod pdu;

pub use decoding::{Decoding, push_decoded};
pub use joined::all_text;
pub use lines::hex_lines;
pub use messages::{message_text, messages_text};
