//! Laws: what one client gets behind a proxy whose modem answers at once, and what the proxy meets.
#![tactic(auto)]

mod laws;

pub use laws::{lone_clients_are_answered, lone_clients_are_served};
