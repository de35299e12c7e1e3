//! Who is there at a QMI proxy of several devices, where each client is, and which device one chooses.
#![tactic(auto)]

mod chosen;
mod gone;
mod paths;
mod said;
mod seat;
mod seats;

pub use chosen::Chosen;
pub use paths::Paths;
pub use seats::Seats;
