//! A session over an open link: the wait for an answer, and requests one behind another, in any
//! framing.
#![tactic(auto)]

mod asking;
mod fault;
mod incoming;
mod laws;
mod mark;
mod waiting;

pub use asking::{Reply, exchange};
pub use fault::SessionFault;
pub use incoming::{Found, Incoming};
pub use laws::{links_decide_nothing, peers_can_be_asked};
pub use mark::{Mark, next_mark};
pub use waiting::{Awaits, Meaning, wait_for};
