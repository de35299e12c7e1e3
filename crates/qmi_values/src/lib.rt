//! Values of QMI messages: their bytes, both ways.
#![tactic(auto)]

mod decoding;
mod encoding;
mod fault;
mod laws;
mod numbers;
mod reader;
mod val;

pub use decoding::decode;
pub use encoding::encode;
pub use fault::{EncodeFault, ValFault};
pub use laws::{
    broken_bytes_spell_nothing, bytes_spell_one_value, longer_bytes_spell_nothing,
    refusal_has_one_reason, value_has_one_spelling,
};
pub use val::{Val, Vals};
