//! The messages that come over an open link, shown in lines as they come.
#![tactic(auto)]

mod end;
mod following;
mod laws;
mod shows;

pub use end::FollowEnd;
pub use following::follow;
pub use laws::marks_come_in_order;
pub use shows::Shows;
