//! A proxy's clients and its modems over Unix sockets, which are waited for with `mio`.
#![tactic(auto)]

mod hub;
mod line;
mod many;
mod modem;
mod pace;
mod peer;
mod resting;
mod routes;
mod sockets;
mod ticker;
mod tokens;

pub use hub::MioHub;
pub use many::MioManyHub;
