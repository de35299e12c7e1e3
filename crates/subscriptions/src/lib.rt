//! What the clients of an MBIM proxy subscribe to, and all that they subscribe to together.
#![tactic(auto)]

mod client;
mod client_list;
mod counts;
mod laws;
mod pair_list;
mod subscriptions;

pub use client_list::{ClientList, LONGEST_CLIENT_LIST};
pub use counts::{Counted, Counts, MOST_COUNTED};
pub use laws::{
    clients_are_what_calls_say, hidden_clients_dont_count, merges_are_of_the_shown,
    merges_are_short, merges_want_what_lists_want, normal_forms_want_the_same,
};
pub use pair_list::{LONGEST_LIST, Pair, PairList, normalize};
pub use subscriptions::{CLIENT_LIMIT, Subscriptions, TooMany};
