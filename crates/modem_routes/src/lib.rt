//! The routes to a modem: over a socket, behind two pumps, or over a proxy that is started.
#![tactic(auto)]

mod reaching;
mod route;
mod words;

pub use reaching::{ReachFault, reach, start_more_pumps, start_pumps};
pub use route::{Device, Pumps, Route};
