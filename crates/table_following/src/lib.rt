//! Requests by the tables of a file, behind whose answer the indications for their client are shown as they come, and the command that has such a session with a modem.
#![tactic(auto)]

mod command_end;
mod end;
mod file;
mod following;
mod plan;
mod session;
mod telling;
mod text;
mod watch;

pub use end::FollowedEnd;
pub use file::indications_in_file;
pub use following::follow_modem;
pub use plan::FollowPlan;
pub use session::table_following;
pub use watch::Watch;
