//! What a core of the MBIM proxy keeps of a client and of the modem, and how it hears a client.
#![tactic(auto)]

mod askers;
mod client;
mod command;
mod device;
mod hearing;
mod modem;
mod reply;
mod request;
mod sending;
mod side;
mod traffic;
mod writer;

pub use askers::Askers;
pub use client::Client;
pub use side::{ModemSide, is_same};
pub use writer::Writer;
