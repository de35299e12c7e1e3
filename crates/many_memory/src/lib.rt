//! A hub of several devices in memory.
#![tactic(auto)]

mod memory;

pub use memory::{DeviceCalls, MemManyHub};
