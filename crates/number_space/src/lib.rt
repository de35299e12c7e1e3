//! Transaction numbers: each is given to one request at a time, and stays in use until its answer.
#![tactic(auto)]

mod by_number;
mod chain;
mod counts;
mod laws;
mod numbers;
mod rows;
mod space;

pub use laws::{numbers_are_in_use_until_freed, numbers_are_pending_until_ended};
pub use numbers::Numbers;
pub use space::{Found, Row, Space};
