//! All clients of a rig on a running stage: each opens the device, then they take turns that are drawn.
#![tactic(auto)]

mod draws;
mod mbim;
mod opening;
mod players;
mod protocol;
mod qmi;
mod runs;

pub use mbim::MbimClients;
pub use protocol::Protocol;
pub use qmi::QmiClients;
pub use runs::{open_core, run_clients};
