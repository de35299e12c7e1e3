//! Laws: a client of the MBIM proxy gets beside others the bytes that it would get alone with the
//! modem. With worked examples, byte for byte, and that its bytes may come message by message.
#![tactic(auto)]

mod laws;
pub mod premises;
pub mod stories;

pub use laws::{
    cores_queue_the_same, gets_the_same_alone, openings_are_in_order,
    parts_bring_what_the_piece_brings,
};
