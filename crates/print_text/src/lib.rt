//! The lines in which a modem's answers are printed, and the texts in them.
#![tactic(auto)]

mod lines;
mod texts;
mod wording;

pub use lines::{deeper, or_ok, push_front, push_heading, push_line};
pub use texts::{
    escaped_text, hex_pair, hex_text, ipv4_text, lower_hex_pair, push_hex, push_ipv4, push_number,
    push_worded, worded,
};
pub use wording::Wording;
