//! What worked rows tell of the outside of a run: how it answers, and each call that is made on it. A
//! link, files, children and a hub.
#![tactic(auto)]

mod calls;
mod files;
mod hub;
mod kids;

pub use calls::{Call, Noted, link_of, made_by, made_calls, push_calls, told_calls};
pub use files::FileCalls;
pub use hub::HubCalls;
pub use kids::KidCalls;
