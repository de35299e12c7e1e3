//! A simulated modem that is kept running: a child process that is started anew until it ends well.
#![tactic(auto)]

mod laws;
mod supervision;
mod words;

pub use laws::failed_stops_alone_leave_modems;
pub use supervision::{SupervisionEnd, supervise_simulator};
