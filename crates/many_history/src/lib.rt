//! What the proxy of each of several devices meets of all events: definitions and laws.
#![tactic(auto)]

mod laws;

pub use laws::{
    dropped_have_the_bytes_of_their_place, each_device_meets_its_own, few_are_there,
    other_devices_change_nothing, own_events_may_come, seats_are_of_devices, who_is_there_sits,
};
