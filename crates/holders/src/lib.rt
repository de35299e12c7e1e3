//! Which connection holds which client id, and which ids are kept whose holders went.
#![tactic(auto)]

mod by_id;
mod holders;
mod laws;
mod row;

pub use holders::Holders;
pub use laws::ids_are_held_until_ended;
