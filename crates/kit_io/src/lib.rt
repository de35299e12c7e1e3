//! The outside as traits: what a call on it took, and when it may say that it failed.
//!
//! Each trait has an implementation in memory, which follows a script and tells what was done to
//! it, and an adapter over the real thing, which tells nothing.
#![tactic(auto)]

mod call_count;
mod faults;
mod log;
mod memory;
mod record;
mod sink;
mod standard;
mod words;
mod write;

pub use call_count::CallCount;
pub use faults::{Failed, Faults};
pub use log::{Log, Note};
pub use memory::{MemSink, SinkAnswer};
pub use record::Record;
pub use sink::Sink;
pub use standard::StdSink;
pub use words::system_words;
pub use write::{WriteFault, write_all_to};
