//! Worked examples of what is noted of a proxy: its ledger event by event, and traces byte for byte.
#![tactic(auto)]

pub mod ledgers;
pub mod mbim_ledgers;
pub mod shares;
pub mod traces;
