//! Messages of QMI over QMUX: where they end in a stream, their heads, and how they are written.
#![tactic(auto)]

pub mod control;
mod head;
mod kind;
mod laws;
mod number;
mod qmux;
mod reply;
mod short;
mod writing;

pub use head::{Head, tlvs_in};
pub use kind::MessageKind;
pub use laws::written_is_read;
pub use number::set_number;
pub use qmux::Qmux;
pub use reply::{Reply, reply_to, result_reply, result_tlv};
pub use short::ShortBytes;
pub use writing::{LONGEST_TLVS, NewMessage, Sender};

/// Cuts a QMUX stream into its messages.
pub type Cutter = framing::Cutter<Qmux>;
