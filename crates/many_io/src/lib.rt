//! A proxy's clients and the modems of its several devices as a trait, and what happens to such a
//! proxy; a hub of one device is one of several.
#![tactic(auto)]

mod event;
mod hub;
mod one;

pub use event::ManyEvent;
pub use hub::{ManyHub, ManyHubEvent};
