//! Requests by the tables of a file: the JSON that gives their values, their session, and what is printed of
//! an answer, as text or as JSON; an indication as JSON too.
#![tactic(auto)]

mod answer;
pub mod answer_examples;
mod answer_tlvs;
mod asked;
mod each;
pub mod examples;
mod fault;
mod file;
mod forms;
mod input_tlvs;
mod laws;
mod lines;
mod plan;
mod pointer;
mod request_fault;
mod session;
mod values;

pub use answer::answer_text;
pub use answer_tlvs::put_tlvs;
pub use asked::{Asked, request_by};
pub use fault::{InputFault, NoRequest};
pub use file::request_in_file;
pub use input_tlvs::request_tlvs;
pub use laws::values_are_read_back;
pub use lines::{answer_line, indication_line};
pub use plan::TablePlan;
pub use request_fault::RequestFault;
pub use session::{TableEnd, table_session};
