//! Worked examples of the QMI proxy, byte for byte.
#![tactic(auto)]

pub mod answers;
pub mod client_ids;
pub mod connections;
pub mod endings;
pub mod full_space;
pub mod grants;
pub mod indications;
pub mod kept;
pub mod limits;
pub mod losses;
pub mod malformed;
pub mod matching;
pub mod pieces;
pub mod releases;
pub mod shares;
pub mod verdicts;
