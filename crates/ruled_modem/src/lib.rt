//! A simulated modem of either kind that goes by rules, over one that goes by none.
#![tactic(auto)]

mod by_kind;
mod counting;
pub mod examples;
mod host;
mod laws;
mod replies;
mod requests;
mod ruled;

pub use laws::{no_rules_change_nothing, others_reach_the_modem};
pub use ruled::Ruled;
