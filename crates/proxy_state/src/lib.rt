//! What a core of any proxy keeps of its events, and that it stands for them after each.
#![tactic(auto)]

mod laws;

pub use laws::cores_tell_what_the_history_says;
