//! The QMI proxy: several clients share one modem.
//!
//! Its definitions, which say what each client and the modem get, and the laws that follow from them.
//! `docs/MODEL.md` tells them in plain words.
#![tactic(auto)]

mod laws;

pub use laws::{
    bytes_only_grow, clients_have_room, events_hang_up_their_own, histories_are_regular,
    histories_are_sound, limits_are_kept, modem_bytes_only_grow, nothing_follows_an_end,
    numbers_in_use_differ, parties_are_present, proxies_are_lawful, requests_are_asked,
    the_modem_is_away_in_both, the_order_of_refusals_loses_none, verdicts_have_what_they_need,
};
