//! Laws of the MBIM proxy: what its clients have of each other, and what stands in their queues.
//!
//! `mbim_state` keeps what the history says, so they hold of each client's bytes in a running proxy.
#![tactic(auto)]

mod laws;

pub use laws::{
    answers_have_one_receiver, answers_stand, forwarded_commands_are_queued,
    indications_reach_their_receivers, numbers_are_free_when_given, openings_answer_the_waiting,
    shares_are_the_views_own, the_idle_are_not_refused,
};
