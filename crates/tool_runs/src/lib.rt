//! What one command of a tool does to its link or its files, and what it prints.
#![tactic(auto)]

mod asking;
mod describing;
mod json;
mod laws;
mod mbim;
mod messages;
mod qmi;
mod run_end;
mod session;
mod submitting;
mod tables;
mod tunnel;

pub use asking::{ShownPlan, ask};
pub use json::{JsonPlan, JsonSession};
pub use laws::links_are_closed_once;
pub use mbim::mbim_decoding;
pub use messages::describe_file;
pub use run_end::RunEnd;
pub use session::{Refusal, Session};
pub use submitting::submit;
pub use tunnel::TunnelPlan;
