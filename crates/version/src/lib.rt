//! Which version of the program this is, and the line that tells it.
#![tactic(auto)]

mod line;

pub use line::{VERSION, print_version};
