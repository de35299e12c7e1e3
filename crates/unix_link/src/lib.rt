//! A link over a Unix socket, or over a bridge to a node's two pumps. And the files of the sockets that
//! are listened to.
#![tactic(auto)]

mod bridge;
mod link;
mod message_stream;
mod socket_file;

pub use bridge::{Bridge, Pumps};
pub use link::UnixLink;
pub use socket_file::{Listening, are_same, left_over};
