//! Laws of the notes of every rig for QMI: each client meets its part alone, and the counts are right.
//! It takes the same bytes, and the ledger keeps and counts what the facts say.
#![tactic(auto)]

mod laws;

pub use laws::{each_client_meets_its_part, requests_are_counted};
