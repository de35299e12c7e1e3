//! Values of MBIM information buffers: their bytes, both ways.
//!
//! Source: the USB-IF MBIM specification 1.0.
#![tactic(auto)]

mod decoding;
mod encoding;
mod fault;
mod laid;
mod laws;
mod layout;
mod memory;
mod numbers;
mod value;

pub use decoding::decode_fields;
pub use encoding::encode_fields;
pub use fault::{EncodeFault, FieldFault};
pub use laws::{
    buffer_counts_as_its_values, buffer_has_one_reading, buffer_has_what_is_read,
    encoding_has_its_values,
};
pub use layout::{Field, FieldShape, Fixed, Form, Item};
pub use value::{FieldVal, FieldValue};
