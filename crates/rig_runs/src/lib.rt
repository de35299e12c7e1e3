//! What a rig runs, drawn from a number, and the lines that sum it up: definitions and small examples.
#![tactic(auto)]

pub mod examples;
pub mod mbim_rigs;
