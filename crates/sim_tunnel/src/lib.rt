//! A simulated MBIM modem that carries QMI messages, whose answers are a definition.
#![tactic(auto)]

mod answering;
mod carrying;
pub mod examples;
mod sim;

pub use sim::TunnelSim;
