//! The one message of a name in a description, and the indications that it tells, read with the definitions before them;
//! and what a message takes and gives, in lines for people.
#![tactic(auto)]

pub mod examples;
mod fault;
mod indication;
mod laws;
mod lines;
mod named;
mod objects;
mod read;
mod services;
mod shapes;
mod told;
mod words;

pub use fault::NamedFault;
pub use laws::ranges_are_what_fits;
pub use lines::message_text;
pub use named::read_message;
pub use read::read_indications;
