//! A captured stream of one direction, shown message by message in lines.
#![tactic(auto)]

mod by_tables;
mod capture;
mod capture_end;
pub mod examples;
mod mbim;
mod mbim_body;
mod mbim_head;
mod parts;
mod qmi;
mod qmi_message;
mod qmi_tlvs;

pub use by_tables::dissect_by_tables;
pub use capture::dissect;
pub use capture_end::CaptureEnd;
pub use mbim::MbimLines;
pub use qmi::QmiLines;
pub use qmi_message::push_tlvs;
pub use stream_lines::DissectEnd;
