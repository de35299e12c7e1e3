//! Laws of the QMI proxy: what its clients have of each other, and what stands in their queues.
//!
//! `qmi_core` keeps what the history says, so they hold of each client's bytes in a running proxy.
#![tactic(auto)]

mod laws;

pub use laws::{
    answers_have_one_receiver, answers_stand, forwarded_requests_are_queued,
    held_ids_are_not_granted, indications_reach_their_receivers, numbers_are_free_when_given,
    others_change_nothing, shares_are_the_views_own, the_idle_are_not_refused,
};
