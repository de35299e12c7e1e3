//! The MBIM proxy: several clients share one modem.
//!
//! Its definitions, which say what each client and the modem get, and the laws that follow from them.
#![tactic(auto)]

mod laws;

pub use laws::{
    bytes_only_grow, clients_have_room, devices_are_named_by_the_layout, events_hang_up_their_own,
    fragments_are_heard_whole, hearing_goes_on, histories_are_sound, limits_are_kept,
    mbim_is_orderly, modem_bytes_only_grow, nothing_follows_an_end, numbers_in_use_differ,
    parties_are_present, proxies_are_lawful, requests_are_asked, takings_bring_one_request,
    the_last_list_is_merged, the_modem_is_away_in_both, time_is_the_greatest,
    verdicts_have_what_they_need,
};
