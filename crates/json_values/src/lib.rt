//! Values of QMI messages from JSON, by their shapes, and as JSON, for scripts.
#![tactic(auto)]

mod answers;
mod counts;
mod ending;
pub mod examples;
mod fault;
mod json;
pub mod json_examples;
mod json_laws;
mod json_texts;
mod laws;
mod lines;
mod members;
mod numbers;
mod path;
mod shows;
mod texts;
mod values;

pub use answers::{put_kept, qmi_line};
pub use ending::{Ending, put_ending};
pub use fault::ValueFault;
pub use json::{json_of, put_field, put_word};
pub use json_laws::{
    json_gives_back_what_is_read, json_gives_values_back, json_nests_as_its_shape,
    words_stand_beside,
};
pub use json_texts::{hexadecimal, put_hexadecimal, text_json};
pub use laws::given_values_fit;
pub use lines::object_line;
pub use members::{Named, first_other};
pub use path::{Path, Step};
pub use shows::{AsPrinted, Plainly, Shows};
pub use values::{named_value, value_of};
