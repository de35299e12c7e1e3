//! What simulating a modem does to its files and its hub.
#![tactic(auto)]

mod by_rules;
mod serving;
mod sim_end;
mod simulating;

pub use by_rules::simulate_by_rules;
pub use sim_end::SimEnd;
pub use simulating::simulate;
