ghost use Rattle.std.specs.Prelude.{◌≡◌};
ghost use Rattle.serde_json.specs.View.{view};
ghost use Rattle.modem_profile.specs.Answers.{Answers, Gives, IsValue};
ghost use Rattle.modem_profile.specs.Reading.{profile_in, profile_of, value_of};

use crate::members::{pdus_in, phonebook_in};
use crate::parts::{device_of, network_of, numbers_of};
use crate::{MemberName, Profile, ProfileFault};
use serde_json::Value;
use std::alloc::Global;

/// The profile that a JSON object describes. Each member may be missing, and members of other names
/// count for nothing.
#[tactic(auto, unfolding(crate::specs::Reading::profile_in))]
pub fn read_profile(alloc: Global, text: &[u8]) -> Result<Profile, ProfileFault>
    ensures { Answers (profile_in text.now) result }
{
    let value = json_value(alloc, text)?;
    if !value.is_object() {
        return Err(ProfileFault::Json);
    }
    let profile = profile_of(alloc, &value)?;
    Ok(profile)
}

#[tactic(auto, unfolding(crate::specs::Reading::value_of))]
fn json_value(alloc: Global, json: &[u8]) -> Result<Value, ProfileFault>
    ensures { IsValue (value_of json.now) result }
{
    match Value::from_slice(alloc, json) {
        Ok(value) => Ok(value),
        Err(error) if error.is_memory() => Err(ProfileFault::OutOfMemory),
        Err(_) => Err(ProfileFault::Json),
    }
}

// The members in their order, up to the first that is faulty.
#[tactic(auto, unfolding(crate::specs::Reading::profile_of))]
fn profile_of(alloc: Global, object: &Value) -> Result<Profile, ProfileFault>
    ensures { Gives (λ profile. profile) (profile_of (view object.now)) result }
{
    let device = device_of(alloc, object)?;
    let network = network_of(alloc, object)?;
    let numbers = numbers_of(object)?;
    let sms = pdus_in(alloc, object, MemberName::Sms)?;
    let phonebook = phonebook_in(alloc, object, MemberName::Phonebook)?;
    Ok(Profile {
        device,
        network,
        numbers,
        sms,
        phonebook,
    })
}
