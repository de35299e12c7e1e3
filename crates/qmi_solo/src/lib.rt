//! Laws: a client of the QMI proxy gets beside others the bytes that it would get alone with the modem.
//! With worked examples, byte for byte.
#![tactic(auto)]

mod laws;
pub mod premises;
pub mod stories;

pub use laws::{cores_queue_the_same, gets_the_same_alone};
