//! What a core of the MBIM proxy keeps, what it stands for, and what each event makes of it.
#![tactic(auto)]

mod asked;

pub use asked::{Asked, CommandName};
