ghost use Rattle.std.specs.Prelude.{◌≡◌};
ghost use Rattle.serde_json.specs.View.{view};
ghost use Rattle.message_tables.specs.Members.{value_in};
ghost use Rattle.message_tables.specs.Formats.{is_little, is_plain, format_of};

use crate::MemberName;
use crate::members::member;
use serde_json::Value;

/// How a member `format` says that a value stands in bytes.
#[derive(Drop)]
pub(crate) enum Format {
    /// An unsigned number of so many bytes.
    Unsigned(u8),
    /// A signed number of so many bytes.
    Signed(u8),
    /// An unsigned number of as many bytes as another member says.
    Sized,
    Text,
    Array,
    Sequence,
}

impl Format {
    ghost use Rattle.std.specs.Prelude.{◌≡◌};
    ghost use Rattle.message_tables.specs.Formats.{format_named};

    /// The format of this name.
    #[tactic(auto, unfolding(crate::specs::Formats::format_named))]
    pub(crate) fn named(name: &str) -> Option<Format>
        ensures { result ≡ format_named name.now }
    {
        match name {
            "guint8" => Some(Format::Unsigned(1)),
            "guint16" => Some(Format::Unsigned(2)),
            "guint32" => Some(Format::Unsigned(4)),
            "guint64" => Some(Format::Unsigned(8)),
            "gint8" => Some(Format::Signed(1)),
            "gint16" => Some(Format::Signed(2)),
            "gint32" => Some(Format::Signed(4)),
            "gint64" => Some(Format::Signed(8)),
            "guint-sized" => Some(Format::Sized),
            "string" => Some(Format::Text),
            "array" => Some(Format::Array),
            "sequence" | "struct" => Some(Format::Sequence),
            _ => None,
        }
    }
}

/// The format of this name in an object, where the object doesn't lay its bytes out otherwise.
#[tactic(auto, unfolding(crate::specs::Formats::format_of))]
pub(crate) fn format_of(object: &Value, name: &str) -> Option<Format>
    ensures { result ≡ format_of (view object.now) name.now }
{
    if is_plain(object) {
        Format::named(name)
    } else {
        None
    }
}

// Whether no number stands before a list's elements but their count, and each has its lowest byte first.
fn is_plain(object: &Value) -> bool
    ensures { result ≡ is_plain (view object.now) }
{
    is_little(object) && member(object, MemberName::SequencePrefixFormat).is_none()
}

fn is_little(object: &Value) -> bool
    ensures { result ≡ is_little (value_in MemberName.Endian (view object.now)) }
{
    match member(object, MemberName::Endian) {
        Some(order) => match order.as_str() {
            Some(name) => name == "little",
            None => false,
        },
        None => true,
    }
}
