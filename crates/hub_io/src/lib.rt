//! A proxy's clients and its modem as a trait, and in memory; what they tell, and what a proxy is
//! asked.
#![tactic(auto)]

mod clients;
mod event;
mod hub;
mod laws;
mod memory;
mod settings;

pub use clients::{ConnFaults, Names, PLACES, place_of};
pub use event::Event;
pub use hub::{Hub, HubEvent, NEXT_ROOM};
pub use laws::events_stand_in_order;
pub use memory::{HubAnswer, HubCall, HubTurn, MemHub};
pub use settings::{Limits, ServeEnd, Settings, Until};
