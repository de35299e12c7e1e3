//! What is noted of a proxy on a bench, its trace and a ledger of the requests in use: definitions.
#![tactic(auto)]

mod rows;
mod trace;

pub use rows::{Counts, Key, Row};
pub use trace::Met;
