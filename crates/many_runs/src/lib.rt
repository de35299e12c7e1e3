//! What the program does as a proxy of several devices: it opens a hub for them, starts the pumps of
//! those that are nodes, serves their clients, and stops what it started.
#![tactic(auto)]

mod devices;
mod opening;
mod running;

pub use opening::NotOpened;
pub use running::{ManyEnd, ManyRun, run_many};
