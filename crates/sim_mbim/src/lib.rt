//! A simulated MBIM modem, whose answers are a definition.
//!
//! Source: the USB-IF MBIM specification 1.0.
#![tactic(auto)]

mod basic_connect;
mod commands;
pub mod examples;
mod laws;
mod lists;
mod modem;
mod network;
mod phonebook;
mod places;
mod request;
mod services;
mod sessions;
mod sim;
mod sms;
mod ussd;
mod values;
mod writing;

pub use laws::answers_have_encodings;
pub use lists::takes_list;
pub use request::Request;
pub use sim::MbimSim;
pub use writing::{done, indication};
