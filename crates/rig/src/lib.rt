//! Runs a proxy's core with many clients, then with each alone, and sums it up in eight lines.
#![tactic(auto)]

mod lines;
mod playing;
mod text;

pub use lines::rig_lines;
