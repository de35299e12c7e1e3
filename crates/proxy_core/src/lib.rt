//! The core of a proxy between several clients and one modem, whatever its protocol: it is told what
//! happens, and keeps what each client and the modem are to get.
#![tactic(auto)]

mod protocol;
mod proxy;
mod serving;

pub use protocol::Protocol;
pub use proxy::Core;
pub use serving::serve_proxy;
