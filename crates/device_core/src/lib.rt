//! A tool's session with a QMI modem, over a link that is open.
#![tactic(auto)]

mod answer;
mod asking;
mod control;
mod laws;
mod message;
mod plan;
mod session;
mod wanted;

pub use answer::{allocated, read};
pub use asking::{ask, exchange};
pub use laws::{
    sessions_end_as_at_peers, sessions_send_their_requests, verdicts_are_of_what_is_read,
};
pub use link_session::SessionFault;
pub use message::request_message;
pub use plan::QmiPlan;
pub use session::{command_number, failed, failure, qmi_session};
pub use wanted::Wanted;
