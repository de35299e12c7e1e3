//! The text in which answers of an MBIM modem are printed.
#![tactic(auto)]

mod answer;
pub mod examples;
mod print;
mod texts;
mod words;

pub use answer::{fields_text, mbim_text};
pub use print::{counts, spelled};
pub use texts::{Family, address_text, uuid_text};
pub use words::word_for;
