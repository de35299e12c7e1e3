//! MBIM's services: their commands in a table, what each request sends, and what its answer says.
//!
//! Source: the USB-IF MBIM specification 1.0, and of the proxy's own service libmbim.
#![tactic(auto)]

mod answers;
pub mod commands;
mod event_list;
mod events;
pub mod examples;
mod laws;
mod lists;
mod paths;
mod requests;
mod sent;
mod table;

pub use answers::{AnswerFault, MbimAnswer, done};
pub use event_list::{Cids, Event, EventList};
pub use events::Events;
pub use laws::{each_command_stands_once, each_layout_is_well_made, each_request_has_a_buffer};
pub use lists::{LONGEST_LIST, MOST_PAIRS, run_length, write_events};
pub use paths::config_path_is;
pub use requests::{LONGEST_BUFFER, command};
pub use sent::Command;
pub use table::{Service, Way, layout, service_cids};
