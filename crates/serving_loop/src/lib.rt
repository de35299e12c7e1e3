//! The loop that serves the clients of a proxy of any devices over a hub: each one is offered what
//! waits for it before the hub is asked for more.
#![tactic(auto)]

mod blocked;
mod many_core;
mod offer;
mod one;
mod server;
mod serving;
mod told_event;

pub use blocked::Blocked;
pub use many_core::ManyProxyCore;
pub use one::serve;
pub use serving::serve_devices;
