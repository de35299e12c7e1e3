ghost use Rattle.std.specs.Prelude.{◌≡◌, option_map, IsTrue};
ghost use Rattle.serde_json.specs.View.{view};
ghost use Rattle.modem_profile.specs.Answers.{Gives};
ghost use Rattle.modem_profile.specs.Limits.{is_short_ascii};
ghost use Rattle.modem_profile.specs.Members.{value_in};
ghost use Rattle.modem_profile.specs.Reading.{member_or};
ghost use Rattle.modem_profile.specs.Values.{ascii_text, network_code, signal_strength, pdus, phonebook_entries};
ghost use Rattle.std.specs.Prelude.{[]};

use crate::ascii::ascii_text;
use crate::lists::{pdus, phonebook_entries};
use crate::numbers::{network_code, signal_strength};
use crate::{AsciiText, MemberName, PhonebookEntry, ProfileFault};
use kit_bytes::Octets;
use serde_json::Value;
use std::alloc::Global;

/// The value of a member.
fn member(object: &Value, name: MemberName) -> Option<&Value>
    ensures { option_map (λ value. view value.now) result ≡ value_in name (view object.now) }
{
    object.get(name.as_str())
}

/// The text that a member gives.
#[tactic(auto, unfolding(crate::specs::Reading::member_or))]
pub(crate) fn ascii_or(
    alloc: Global,
    object: &Value,
    name: MemberName,
    default: &str,
) -> Result<AsciiText, ProfileFault>
    requires { IsTrue (is_short_ascii default.now) }
    ensures { Gives (λ text. text) (member_or name ascii_text default.now (view object.now)) result }
{
    let Some(value) = member(object, name) else {
        let text = AsciiText::from_str(alloc, default)?;
        return Ok(text);
    };
    match ascii_text(alloc, value)? {
        Some(text) => Ok(text),
        None => Err(ProfileFault::Member(name)),
    }
}

/// The mobile country code or mobile network code that a member gives.
#[tactic(auto, unfolding(crate::specs::Reading::member_or))]
pub(crate) fn code_or(object: &Value, name: MemberName, default: u16) -> Result<u16, ProfileFault>
    ensures { Gives (λ code. code) (member_or name network_code default (view object.now)) result }
{
    match member(object, name) {
        Some(value) => network_code(value).ok_or(ProfileFault::Member(name)),
        None => Ok(default),
    }
}

/// The strength in dBm that a member gives.
#[tactic(auto, unfolding(crate::specs::Reading::member_or))]
pub(crate) fn signal_or(object: &Value, name: MemberName, default: i8) -> Result<i8, ProfileFault>
    ensures { Gives (λ strength. strength) (member_or name signal_strength default (view object.now)) result }
{
    match member(object, name) {
        Some(value) => signal_strength(value).ok_or(ProfileFault::Member(name)),
        None => Ok(default),
    }
}

/// The messages that a member lists.
#[tactic(auto, unfolding(crate::specs::Reading::member_or))]
pub(crate) fn pdus_in(
    alloc: Global,
    object: &Value,
    name: MemberName,
) -> Result<Vec<Octets>, ProfileFault>
    ensures { Gives (λ list. list.items) (member_or name pdus [] (view object.now)) result }
{
    let Some(value) = member(object, name) else {
        return Ok(Vec::new(alloc));
    };
    match pdus(alloc, value)? {
        Some(list) => Ok(list),
        None => Err(ProfileFault::Member(name)),
    }
}

/// The entries of a phone book that a member lists.
#[tactic(auto, unfolding(crate::specs::Reading::member_or))]
pub(crate) fn phonebook_in(
    alloc: Global,
    object: &Value,
    name: MemberName,
) -> Result<Vec<PhonebookEntry>, ProfileFault>
    ensures { Gives (λ list. list.items) (member_or name phonebook_entries [] (view object.now)) result }
{
    let Some(value) = member(object, name) else {
        return Ok(Vec::new(alloc));
    };
    match phonebook_entries(alloc, value)? {
        Some(list) => Ok(list),
        None => Err(ProfileFault::Member(name)),
    }
}
