ghost use Rattle.std.specs.Prelude.{◌≡◌, ◌≤◌, IfSome};
ghost use Rattle.serde_json.specs.View.{view};
ghost use Rattle.modem_rules.specs.Values.{has_members, number_in, number_within};

use serde_json::Value;

/// The number within these bounds that a value is.
#[tactic(auto, unfolding(crate::specs::Values::number_within))]
pub(crate) fn number_within(least: u64, most: u64, value: &Value) -> Option<u64>
    ensures exact { result ≡ number_within least most (view value.now) }
    ensures within { IfSome result (λ number. (least ≤ number) × (number ≤ most)) }
{
    let number = value.as_u64()?;
    if least <= number && number <= most {
        Some(number)
    } else {
        None
    }
}

/// The number within these bounds that a member is.
#[tactic(auto, unfolding(crate::specs::Values::number_in))]
pub(crate) fn number_in(object: &Value, name: &str, least: u64, most: u64) -> Option<u64>
    ensures exact { result ≡ number_in name.now least most (view object.now) }
    ensures within { IfSome result (λ number. (least ≤ number) × (number ≤ most)) }
{
    number_within(least, most, object.get(name)?)
}

/// Whether an object has so many members in all.
#[tactic(auto, unfolding(crate::specs::Values::has_members))]
pub(crate) fn has_members(object: &Value, count: usize) -> bool
    ensures { result ≡ has_members count (view object.now) }
{
    match object.as_object() {
        Some(members) => members.len() == count,
        None => count == 0,
    }
}
