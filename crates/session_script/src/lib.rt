//! A session over an open link as a script: what it asks, and what it makes of each answer.
#![tactic(auto)]

mod laws;

pub use laws::{scripts_end_as_at_peers, scripts_go_on};
