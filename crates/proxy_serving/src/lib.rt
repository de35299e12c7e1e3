//! What serving the clients of a proxy over a hub comes to, and what the core of one tells for it.
#![tactic(auto)]

mod proxy_core;

pub use proxy_core::ProxyCore;
