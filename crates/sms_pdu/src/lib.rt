//! Bodies of short messages, which the network delivers or is given: read, made, and joined from parts.
#![tactic(auto)]

mod address;
mod body;
mod coding;
mod data;
mod entries;
mod fields;
mod header;
mod joined;
mod joining;
mod laws;
mod messages;
mod number;
mod parts;
mod pdu;
mod reading;
mod splitting;
mod texts;
mod time;

pub use fields::Field;
pub use joined::{Joined, JoinedList, Pdus};
pub use joining::join;
pub use laws::{
    a_text_comes_back, addresses_are_read, codings_are_read, edges_of_parts, headers_are_read,
    long_texts_are_split, messages_are_made, messages_are_read, parts_are_joined, texts_are_sent,
    validity_is_passed,
};
pub use messages::{can_be_sent, submit_pdus};
pub use parts::{PduList, SubmitFault};
pub use pdu::{Body, Part, Pdu, PduFault};
pub use reading::read_pdu;
