//! The lines that tell what went over a watched link: each message in the lines of a dissected stream, and
//! why a call failed.
#![tactic(auto)]

mod direction;
pub mod examples;
pub mod laws;
mod marks;
mod push;
mod shower;
mod streams;

pub use push::push_lines;
