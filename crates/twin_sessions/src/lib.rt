//! Laws: the session of a tool twice, at a modem itself and alone through a proxy.
#![tactic(auto)]

mod laws;

pub use laws::{mbim_sessions_end_alike, qmi_sessions_end_alike};
