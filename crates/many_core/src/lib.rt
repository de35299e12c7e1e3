//! The core of a QMI proxy of several devices: it is told what happens, and keeps what each client and
//! each modem are to get.
#![tactic(auto)]

mod many;

pub use many::ManyCore;
