//! Values of TLVs by their shapes, both ways.
#![tactic(auto)]

mod laws;
mod read;
mod values;
mod write;

pub use laws::{bytes_read_as_spelled, fitting_values_are_spelled, only_spellings_spell};
pub use read::{read_value, read_value_in};
pub use values::{list, list_of_bytes, sequence};
pub use write::write_value;
