//! The core of the QMI proxy: it meets events, and keeps what each client and the modem are to get.
#![tactic(auto)]

mod errors;
mod hearing;
mod message;
mod protocol;
mod side;
mod telling;
mod traffic;

pub use protocol::{QmiCore, QmiHand};
