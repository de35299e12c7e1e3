//! Worked rows that run one part: a format of values, a layout, fragments, tables of messages, a simulated modem.
#![tactic(auto)]

mod format;
mod fragments;
mod layout;
mod modem;
mod modems;
mod tables;

pub use format::is_format;
pub use fragments::{are_joined, is_split};
pub use layout::is_laid_out;
pub use modems::{is_mbim_modem, is_qmi_modem};
pub use tables::are_tables;
