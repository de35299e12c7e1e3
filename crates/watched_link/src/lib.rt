//! A link that notes what is done on it, and what the system says of a call that failed.
#![tactic(auto)]

mod complain;
mod note;
mod notes;
mod watch;
mod watched;

pub use complain::Complain;
pub use note::LinkNote;
pub use notes::{BYTES_ROOM, NOTES_ROOM, Notes};
pub use watch::Watch;
pub use watched::Watched;
