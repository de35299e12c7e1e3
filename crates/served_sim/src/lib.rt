//! The trait of a simulated modem that is served: it answers whole requests, and may hang up.
#![tactic(auto)]

mod plain;
mod served;

pub use plain::Plain;
pub use served::{Reply, ServedSim};
