//! Values of MBIM information buffers as JSON, for scripts.
#![tactic(auto)]

mod answer;
pub mod examples;
mod laws;
mod texts;
mod values;

pub use answer::mbim_line;
pub use laws::{json_nests_as_its_layout, json_tells_values, names_stand_apart};
pub use values::put_fields;
