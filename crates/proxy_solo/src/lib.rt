//! What a client of any proxy would meet alone with the modem, and what of a history concerns it.
#![tactic(auto)]

mod laws;

pub use laws::time_goes_on_alone;
