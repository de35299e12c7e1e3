//! Worked examples of the MBIM proxy, byte for byte.
#![tactic(auto)]

pub mod answers;
pub mod fragments;
pub mod lists;
pub mod losses;
pub mod malformed;
pub mod openings;
pub mod shares;
