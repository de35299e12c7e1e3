//! The bodies of the short messages that a modem's answer holds.
#![tactic(auto)]

mod mbim;
mod qmi;

pub use mbim::mbim_bodies;
pub use qmi::qmi_bodies;
