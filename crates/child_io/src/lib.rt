//! Child processes: a trait of what starts them, in memory and over the system, and `Kids`. These are
//! the started children, which must be spent.
#![tactic(auto)]

mod examples;
mod kids;
mod laws;
mod memory;
mod spawner;
mod standard;

pub use examples::{
    a_number_may_be_given_again, ends_that_failed_leave_their_child, started_children_are_alive,
    who_ended_or_stopped_is_not_alive,
};
pub use kids::{KIDS_LIMIT, Kids};
pub use laws::{alive_until_the_end, failed_stops_alone_leave_children};
pub use memory::{Made, MemSpawner, SpawnerAnswer};
pub use spawner::Spawner;
pub use standard::StdSpawner;
