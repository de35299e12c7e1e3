//! What a client of an MBIM proxy subscribes to, as it comes in the buffer of its command.
#![tactic(auto)]

mod order;
mod reading;
mod sweep;

pub use reading::read_list;
