//! A tool's session with a QMI modem inside an MBIM modem, over a link that is open.
#![tactic(auto)]

mod carried;
mod carrying;
mod ends;
pub mod examples;
mod laws;
mod message;
mod request;
mod session;

pub use ends::TunnelEnd;
pub use laws::sessions_end_as_at_peers;
pub use message::carried_message;
pub use session::tunnel_session;
