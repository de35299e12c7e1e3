//! The two ways between a device node and a socket, one for each direction. What a node gives is sent,
//! and what comes is written to the node, which takes one control message a write.
#![tactic(auto)]

mod begin;
mod ending;
pub mod examples;
mod laws;
mod node;
mod piece;
mod reading;
mod stream;
mod writing;

pub use ending::PumpEnd;
pub use laws::{
    what_was_read_is_sent, what_was_taken_is_written, whole_messages_are_written_alone,
};
pub use node::{PUMP_TURNS, pump_node};
pub use reading::pump_read;
pub use writing::pump_write;
