//! The trait of a simulated modem: it answers whole requests.
#![tactic(auto)]

pub mod examples;
mod laws;
mod sim;

pub use laws::each_message_is_met;
pub use sim::Sim;
