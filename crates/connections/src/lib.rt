//! The connections of a proxy's clients: who is there, their streams, and what waits for each. And what
//! the protocol keeps of its client.
#![tactic(auto)]

mod connection;
mod connections;
mod dropped;
mod hears;
mod place;
mod renews;

pub use connections::Connections;
pub use hears::Hears;
pub use renews::Renews;
