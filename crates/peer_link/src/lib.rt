//! A link to a peer that answers each text at once, and whose whole answer waits to be taken.
#![tactic(auto)]

mod answerer;
mod link;

pub use answerer::Answerer;
pub use link::PeerLink;
