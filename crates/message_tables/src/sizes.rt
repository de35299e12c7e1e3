ghost use Rattle.std.specs.Prelude.{◌≡◌, ◌≤◌, IfSome};
ghost use Rattle.serde_json.specs.View.{view};
ghost use Rattle.message_tables.specs.Reads.{Gets, same};
ghost use Rattle.message_tables.specs.Numbers.{size_of, in_range};
ghost use Rattle.message_tables.specs.Formats.{number_size, stated_prefix, count_named};

use crate::MemberName;
use crate::digits::decimal;
use crate::fault::ObjectFault;
use crate::members::member;
use qmi_shapes::Prefix;
use serde_json::Value;

/// The size from 1 to 8 that the member `guint-size` gives.
#[tactic(auto, unfolding(crate::specs::Formats::number_size))]
pub(crate) fn number_size(object: &Value) -> Result<u8, ObjectFault>
    ensures { Gets same result (number_size (view object.now)) }
{
    match member(object, MemberName::GuintSize) {
        Some(value) => match size_of(8, value) {
            Some(size) => Ok(size as u8),
            None => Err(ObjectFault::Member(MemberName::GuintSize)),
        },
        None => Err(ObjectFault::Member(MemberName::GuintSize)),
    }
}

/// How many bytes a text or elements a list has, where its object says so.
#[tactic(auto, unfolding(crate::specs::Formats::stated_prefix))]
pub(crate) fn stated_prefix(object: &Value) -> Result<Option<Prefix>, ObjectFault>
    ensures { Gets same result (stated_prefix (view object.now)) }
{
    if let Some(value) = member(object, MemberName::FixedSize) {
        return match size_of(65_535, value) {
            Some(size) => Ok(Some(Prefix::Fixed(size))),
            None => Err(ObjectFault::Member(MemberName::FixedSize)),
        };
    }
    if let Some(value) = member(object, MemberName::SizePrefixFormat) {
        return match value.as_str().and_then(count_named) {
            Some(bytes) => Ok(Some(Prefix::Counted(bytes))),
            None => Err(ObjectFault::Member(MemberName::SizePrefixFormat)),
        };
    }
    Ok(None)
}

// A number from 1 up to the greatest, as digits or as a number.
#[tactic(auto, unfolding(crate::specs::Numbers::size_of))]
fn size_of(most: u16, value: &Value) -> Option<u16>
    ensures exact { result ≡ size_of most (view value.now) }
    ensures within { IfSome result (λ size. size ≤ most) }
{
    match value.as_str() {
        Some(text) => in_range(most, u64::from(decimal(text.as_bytes())?)),
        None => in_range(most, value.as_u64()?),
    }
}

fn in_range(most: u16, size: u64) -> Option<u16>
    ensures exact { result ≡ in_range most size }
    ensures within { IfSome result (λ found. found ≤ most) }
{
    if 1 <= size && size <= u64::from(most) {
        Some(size as u16)
    } else {
        None
    }
}

// How many bytes a count of this format has.
#[tactic(auto, unfolding(crate::specs::Formats::count_named))]
fn count_named(name: &str) -> Option<u8>
    ensures { result ≡ count_named name.now }
{
    match name {
        "guint8" => Some(1),
        "guint16" => Some(2),
        "guint32" => Some(4),
        _ => None,
    }
}
