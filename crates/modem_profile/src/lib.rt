//! Profiles of simulated modems, read from JSON.
#![tactic(auto)]

mod ascii;
mod copies;
mod fault;
mod lists;
mod members;
mod numbers;
mod parts;
mod phonebook;
mod profile;
mod read;

pub use ascii::AsciiText;
pub use fault::{MemberName, ProfileFault};
pub use phonebook::{PhonebookEntry, is_phonebook_text};
pub use profile::Profile;
pub use read::read_profile;
