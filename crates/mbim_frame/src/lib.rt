//! Messages of MBIM: where they end in a stream, their heads, and how they are written.
#![tactic(auto)]

mod bodies;
pub mod error;
pub mod examples;
mod fragment;
mod head;
mod kind;
pub mod laws;
mod mbim;
mod number;
pub mod status;
mod writing;

pub use bodies::{CommandHead, DoneHead, IndicationHead, buffer_in, indicated_buffer_in};
pub use fragment::{FragmentHead, body_in};
pub use head::{MHead, set_number};
pub use kind::MessageKind;
pub use mbim::Mbim;
pub use writing::{
    NewFragment, close_done, close_request, function_error, open_done, open_request, plain_done,
};

/// Cuts an MBIM stream into its messages.
pub type MCutter = framing::Cutter<Mbim>;
