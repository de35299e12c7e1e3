//! The history of a proxy of any protocol: what each client and the modem get, and laws.
//!
//! `docs/MODEL.md` tells the model in plain words.
#![tactic(auto)]

mod laws;

pub use laws::{
    a_free_number_is_given, client_ids_are_held_until_they_end,
    client_ids_are_kept_until_they_are_granted, hung_up_are_those_that_ended, kept_ids_are_nobodys,
    limits_are_kept, orderly_protocols_have_these_laws, parties_are_present,
    requests_go_on_until_they_end, requests_in_use_differ, streams_go_on_from_their_rest,
    taken_and_waiting_are_all, the_absent_add_nothing, views_of_gone_connections_stay,
};
