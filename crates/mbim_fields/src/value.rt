ghost use Rattle.std.specs.Prelude.{◌≡◌, map, option_map};
ghost use Rattle.mbim_fields.specs.Value.{list_of, values_of, count_in, as_number, as_uuid, as_octets, as_text, as_elements, as_members};
ghost use Rattle.mbim_fields.specs.View.{value_view, val_view};

use kit_bytes::{Octets, Text};
use uuid::Uuid;

/// The value of a field, or an element of a list.
#[cycle(val)]
#[derive(Debug, Drop)]
pub enum FieldValue {
    /// A number of 4 or of 8 bytes.
    Number(u64),
    /// A UUID, its bytes in the order in which they are written.
    Uuid(Uuid),
    /// The bytes of an address, or those that a pair points at.
    Octets(Octets),
    /// The characters at which a pair points.
    Text(Text),
    /// What an offset of 0 stands for.
    Absent,
    /// The elements of a list.
    List(FieldVal),
    /// The values of the fields of a structure, or the length of a prefix and an address.
    Members(FieldVal),
}

/// The values of the fields of a structure, in their order, or the elements of a list.
#[cycle(val)]
#[derive(Debug, Drop)]
pub struct FieldVal {
    values: Vec<FieldValue>,
}

impl FieldValue {
    /// The number, where it is one.
    pub fn as_number(&self) -> Option<u64>
        ensures { result ≡ as_number (value_view self.now) }
    {
        match self {
            FieldValue::Number(number) => Some(*number),
            _ => None,
        }
    }

    /// The UUID, where it is one.
    pub fn as_uuid(&self) -> Option<Uuid>
        ensures { result ≡ as_uuid (value_view self.now) }
    {
        match self {
            FieldValue::Uuid(uuid) => Some(*uuid),
            _ => None,
        }
    }

    /// The bytes, where it has bytes.
    pub fn as_octets(&self) -> Option<&Octets>
        ensures { option_map (λ octets. octets.now) result ≡ as_octets (value_view self.now) }
    {
        match self {
            FieldValue::Octets(octets) => Some(octets),
            _ => None,
        }
    }

    /// The text, where it is one.
    pub fn as_text(&self) -> Option<&Text>
        ensures { option_map (λ text. text.now) result ≡ as_text (value_view self.now) }
    {
        match self {
            FieldValue::Text(text) => Some(text),
            _ => None,
        }
    }

    /// The elements, where it is a list.
    pub fn as_list(&self) -> Option<&FieldVal>
        ensures { option_map (λ val. val_view val.now) result ≡ as_elements (value_view self.now) }
    {
        match self {
            FieldValue::List(val) => Some(val),
            _ => None,
        }
    }

    /// The values of the fields, where it is a structure.
    pub fn as_members(&self) -> Option<&FieldVal>
        ensures { option_map (λ val. val_view val.now) result ≡ as_members (value_view self.now) }
    {
        match self {
            FieldValue::Members(val) => Some(val),
            _ => None,
        }
    }
}

impl FieldVal {
    /// The values, in their order.
    pub fn as_slice(&self) -> &[FieldValue]
        ensures { list_of (val_view self.now) ≡ map value_view result.now }
    {
        &self.values
    }
}

impl From<Vec<FieldValue>> for FieldVal {
    ghost from_gives = { λ values val. val_view val ≡ values_of (map value_view values.items) };

    fn from(values: Vec<FieldValue>) -> Self {
        FieldVal { values }
    }
}

// How many elements a list has behind fields of these values, by the field at a place.
pub(crate) fn count_in(before: &[FieldValue], place: usize) -> u64
    ensures { result ≡ count_in (map value_view before.now) place }
{
    match before.get(place) {
        Some(FieldValue::Number(number)) => *number,
        _ => 0,
    }
}
