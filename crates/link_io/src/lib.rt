//! A tool's way to one modem or proxy: the trait, and one in memory.
#![tactic(auto)]

mod link;
mod memory;

pub use link::{Link, TAKE_ROOM, Taken, Target};
pub use memory::{LinkAnswer, Made, MemLink};
