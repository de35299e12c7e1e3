//! A tool's session with an MBIM modem, over a link that is open.
#![tactic(auto)]

mod asking;
mod command_answer;
mod laws;
mod message;
mod opening;
mod plan;
mod session;
mod wanted;

pub use asking::close;
pub use command_answer::CommandAnswer;
pub use laws::{
    sessions_end_as_at_peers, sessions_send_their_messages, verdicts_are_of_what_is_read,
};
pub use message::{LONGEST_SENT, command_message};
pub use opening::open;
pub use plan::{MbimEnd, MbimPlan};
pub use session::{configure, mbim_session};
