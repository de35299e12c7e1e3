//! Worked rows that step a proxy's running core: stories, what a rig runs, and clients alone.
#![tactic(auto)]

mod alone;
mod bench;
mod counts;
mod proxy;
mod stories;
mod story;

pub use alone::is_same_alone;
pub use bench::BenchRuns;
pub use stories::{mbim_stories, qmi_stories};
