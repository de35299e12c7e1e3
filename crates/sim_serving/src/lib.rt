//! Serving the clients of a simulated modem over a hub, by the loop of any proxy.
#![tactic(auto)]

mod client;
mod examples;
mod laws;
mod queue;
mod replies;
mod serving;
mod sim_core;
#[cfg(test)]
mod tests;

pub use serving::{serve_sim, serve_so};
pub use sim_core::SimCore;
