//! The requests to a QMI modem's services and their answers, by a table of messages.
#![tactic(auto)]

mod answers;
mod laws;
pub mod messages;
mod modem;
mod requests;
mod table;
mod tables;

pub use answers::{AnswerFault, Field, Fields, QmiAnswer, QmiEnd, answer};
pub use laws::{answers_read_one_way, inputs_are_spelled};
pub use modem::{Message, message_at};
pub use requests::{message_of, request, service_of};
pub use tables::built_in;
