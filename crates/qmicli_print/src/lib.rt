//! The text in which values of QMI messages are printed.
#![tactic(auto)]

mod answer;
mod print;
mod shown;
mod texts;

pub use answer::{push_kept, qmi_text};
pub use print::{print_field, print_titled};
pub use shown::{Shown, service_word, shown_for, word};
pub use texts::push_address;
