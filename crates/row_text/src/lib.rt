//! Worked rows as text: the reader of a file of rows, and what tells a difference from one.
#![tactic(auto)]

mod fault;
mod found;
mod rows;
mod words;

pub use fault::RowFault;
pub use found::{Place, Spelled, are_bytes, differs_at, is, lines_of, tell, text_of};
pub use rows::{Line, Row, Rows, joined_lines, read_rows};
pub use words::words_of;
