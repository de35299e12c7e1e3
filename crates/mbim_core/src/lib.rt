//! The core of the MBIM proxy: it meets events, and keeps what each client and the modem are to get.
#![tactic(auto)]

mod answer;
mod laws;
mod protocol;
mod teller;

pub use laws::the_modem_is_asked_for_all;
pub use protocol::{MbimCore, MbimHand};
