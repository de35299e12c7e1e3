//! What a core of the QMI proxy keeps, what it stands for, and what each event makes of it.
#![tactic(auto)]

mod asked;
mod client;

pub use asked::Asked;
pub use client::Client;
