//! Messages of MBIM in fragments: joined as they come, and split to be sent.
#![tactic(auto)]

mod assembly;
mod body;
pub mod examples;
pub mod laws;
mod splitting;
mod unsplit;

pub use assembly::{Assembly, LONGEST_BODY, Took};
pub use body::Body;
pub use splitting::{LONGEST_SPLIT, split, split_into, split_length};
pub use unsplit::unsplit_head;
