//! A bench on which a proxy's core of either protocol runs alone. It is opened, steps, and is asked
//! what waits for whom; in memory it also keeps what was run.
#![tactic(auto)]

mod bench;
mod cores;
mod held;
mod memory;

pub use bench::Bench;
pub use cores::Cores;
pub use memory::{BenchNote, MemBench};
