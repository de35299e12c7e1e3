ghost use Rattle.std.specs.Prelude.{◌≡◌, Some, None, option_map, MatchResult};
ghost use Rattle.serde_json.specs.View.{view, items_view};
ghost use Rattle.message_tables.specs.Members.{value_in, text_in, objects_in, are_objects};
ghost use Rattle.message_tables.specs.Numbers.{id_in, tlv_id_in};

use crate::MemberName;
use crate::digits::id_of;
use crate::fault::ObjectFault;
use serde_json::Value;

/// The value of a member.
pub(crate) fn member(object: &Value, name: MemberName) -> Option<&Value>
    ensures { option_map (λ value. view value.now) result ≡ value_in name (view object.now) }
{
    object.get(name.as_str())
}

/// The value of a member that is to be a text.
pub fn text_member(object: &Value, name: MemberName) -> Result<&str, ObjectFault>
    ensures { MatchResult result
        (λ text. text_in name (view object.now) ≡ Some text.now)
        (λ fault. (text_in name (view object.now) ≡ None) × (fault ≡ ObjectFault.Member name)) }
{
    match member(object, name).and_then(Value::as_str) {
        Some(text) => Ok(text),
        None => Err(ObjectFault::Member(name)),
    }
}

/// The number that the member `id` gives as a text.
#[tactic(auto, unfolding(crate::specs::Numbers::id_in))]
pub(crate) fn id_member(object: &Value) -> Option<u16>
    ensures { result ≡ id_in (view object.now) }
{
    let text = member(object, MemberName::Id)?.as_str()?;
    id_of(text.as_bytes())
}

/// The number of at most 255 that the member `id` gives as a text.
#[tactic(auto, unfolding(crate::specs::Numbers::tlv_id_in))]
pub(crate) fn tlv_id(object: &Value) -> Option<u8>
    ensures { result ≡ tlv_id_in (view object.now) }
{
    let id = id_member(object)?;
    if id < 256 { Some(id as u8) } else { None }
}

/// The objects that a value lists, where it is a list of objects.
pub fn objects_in(value: &Value) -> Option<&[Value]>
    ensures { option_map (λ objects. items_view objects.now) result ≡ objects_in (view value.now) }
{
    let values = value.as_array()?.as_slice();
    if are_objects(values) {
        Some(values)
    } else {
        None
    }
}

#[tactic(auto, using(crate::proofs::Lists::taken))]
fn are_objects(values: &[Value]) -> bool
    ensures { result ≡ are_objects (items_view values.now) }
{
    for value in values {
        if !value.is_object() {
            return false;
        }
    }
    true
}
