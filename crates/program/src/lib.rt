//! What the program does for each of its tools, from its words to its status.
#![tactic(auto)]

mod dispatch;
mod dissecting;
mod laws;
mod opening;
mod proxies;
mod proxy;
mod pumping;
mod report;
mod rigging;
mod simulator;
mod status;
mod tables;
mod telling;
mod tool;
mod tools;
mod watching;

pub use dispatch::run;
pub use laws::statuses_agree;
pub use proxies::{device_count, run_proxies};
pub use report::{give_up, refuse};
pub use status::Status;
pub use tools::{run_proxy, run_pump, run_rig, run_simulator, run_tool};
