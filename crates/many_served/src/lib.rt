//! Serving the clients of a QMI proxy of several devices: its core as one that can be served over a
//! hub, and the call that does it.
#![tactic(auto)]

mod served;
mod serving;

pub use served::ServedCore;
pub use serving::{ManySettings, serve_many};
