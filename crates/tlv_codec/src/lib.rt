//! TLVs of QMI messages: values that stand one after another, each behind its type and its length.
#![tactic(auto)]

mod laws;
mod list;
mod look;
mod outcome;
mod read;
mod tlv;
mod write;

pub use laws::{
    found_is_first_value, reading_gives_back, text_breaks_in_one_place, text_is_of_one_list,
    written_is_what_was_read,
};
pub use list::Tlvs;
pub use look::{First, find, first_of, tlv_value};
pub use outcome::{Outcome, outcome_in};
pub use read::tlvs;
pub use tlv::{Tlv, TlvFault};
pub use write::write_tlv;
