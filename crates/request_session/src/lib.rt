//! A tool's session with a QMI modem for any request, which is given by its service, its message id and its TLVs.
#![tactic(auto)]

mod answer;
mod client;
mod control;
mod ends;
mod examples;
mod laws;
mod plan;
mod request;
mod session;
mod wanted;

pub use client::{Access, Client};
pub use ends::{RequestEnd, TlvAnswer};
pub use laws::sessions_end_as_at_peers;
pub use plan::RequestPlan;
pub use request::TlvRequest;
pub use session::{leave, reach, request_session, send_request};
pub use wanted::WantedAnswer;
