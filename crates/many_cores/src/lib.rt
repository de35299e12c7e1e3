//! The cores of several QMI devices: one meets an event, all are told the time, and a client arrives at one.
#![tactic(auto)]

mod cores;

pub use cores::{Cores, has};
