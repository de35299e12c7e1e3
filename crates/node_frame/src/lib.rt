//! What a modem's node is written: messages of QMUX and of MBIM, each told by its own first bytes.
#![tactic(auto)]

pub mod examples;
mod front;
mod laws;
mod message;

pub use front::whole_front;
pub use laws::{messages_are_told, no_bytes_begin_both};
pub use message::NodeMessage;

/// Cuts what a modem's node is written into its messages.
pub type Cutter = framing::Cutter<NodeMessage>;
