ghost use Rattle.std.specs.Prelude.{◌≡◌, ◌*◌, ◌^◌, ◌≤◌, map, IfSome, IsNone};
ghost use Rattle.mbim_fields.specs.Layout.{size, width};
ghost use Rattle.mbim_fields.specs.Value.{room};
ghost use Rattle.mbim_fields.specs.Footprint.{fixed_footprint};
ghost use Rattle.mbim_fields.specs.View.{fixed_view, item_view, form_view, value_view};

use crate::FieldValue;
use crate::memory::VALUE_FOOTPRINT;
use crate::value::count_in;

/// What always takes the same number of bytes.
#[derive(Clone, Copy, PartialEq, Eq)]
pub enum Fixed {
    /// A number in 4 bytes, little endian.
    U32,
    /// A number in 8 bytes, little endian.
    U64,
    /// A UUID, its bytes in the order in which they are written.
    Uuid,
    /// An IPv4 address.
    Ipv4,
    /// An IPv6 address.
    Ipv6,
    /// The length of a prefix, a number in 4 bytes, and behind it an IPv4 address.
    PrefixedIpv4,
    /// The length of a prefix, a number in 4 bytes, and behind it an IPv6 address.
    PrefixedIpv6,
}

/// What stands in place itself, or is pointed at from there by a pair: its offset and its size, each a
/// number in 4 bytes.
#[cycle(layout)]
#[derive(Clone, Copy)]
pub enum Item {
    /// A value in place.
    InPlace(Fixed),
    /// A pair that points at a text in UTF-16, little endian.
    Text,
    /// A pair that points at bytes of any kind.
    Binary,
    /// A pair that points at a structure, whose own offsets count from its own first byte.
    Structure(FieldShape),
}

/// How a field stands in its structure. A list has as many elements as the field says whose place
/// among the fields it names; the first field has the place 0.
#[cycle(layout)]
#[derive(Clone, Copy)]
pub enum Form {
    /// One item.
    One(Item),
    /// A list, one item after another in place.
    Each(usize, Item),
    /// An offset in 4 bytes, and from there on a list, one element after another.
    Run(usize, Fixed),
    /// An offset in 4 bytes, and there one value, or none where the offset is 0.
    Perhaps(Fixed),
}

/// A field: its name, and how it stands.
#[cycle(layout)]
#[derive(Clone, Copy)]
pub struct Field(pub &'static str, pub Form);

/// The fields of a structure, in the order in which they stand.
#[cycle(layout)]
#[derive(Clone, Copy)]
pub struct FieldShape(pub &'static [Field]);

impl Fixed {
    // How many bytes it takes.
    pub(crate) fn size(self) -> usize
        ensures { result ≡ size (fixed_view self) }
    {
        match self {
            Fixed::U32 | Fixed::Ipv4 => 4,
            Fixed::U64 | Fixed::PrefixedIpv4 => 8,
            Fixed::Uuid | Fixed::Ipv6 => 16,
            Fixed::PrefixedIpv6 => 20,
        }
    }

    // How many bytes of memory its value counts as.
    pub(crate) fn footprint(self) -> usize
        ensures { result ≡ fixed_footprint (fixed_view self) }
    {
        match self {
            Fixed::U32 | Fixed::U64 | Fixed::Uuid => VALUE_FOOTPRINT,
            Fixed::Ipv4 => VALUE_FOOTPRINT + 4,
            Fixed::Ipv6 => VALUE_FOOTPRINT + 16,
            Fixed::PrefixedIpv4 => 3 * VALUE_FOOTPRINT + 4,
            Fixed::PrefixedIpv6 => 3 * VALUE_FOOTPRINT + 16,
        }
    }
}

impl Item {
    // How many bytes it takes in place.
    pub(crate) fn width(&self) -> usize
        ensures { result ≡ width (item_view self.now) }
    {
        match self {
            Item::InPlace(fixed) => fixed.size(),
            Item::Text | Item::Binary | Item::Structure(_) => 8,
        }
    }
}

impl Form {
    // How many bytes it takes in place, behind fields of these values, if a `usize` can say it.
    pub(crate) fn room(&self, before: &[FieldValue]) -> Option<usize>
        ensures some { IfSome result (λ bytes. bytes ≡ room (form_view self.now) (map value_view before.now)) }
        ensures none { IsNone result → 2 ^ 64 ≤ room (form_view self.now) (map value_view before.now) }
    {
        match self {
            Form::One(item) => Some(item.width()),
            Form::Each(place, item) => total_size(count_in(before, *place), item.width()),
            Form::Run(..) | Form::Perhaps(_) => Some(4),
        }
    }
}

// How many bytes so many of a size take, if a `usize` can say it.
pub(crate) fn total_size(count: u64, size: usize) -> Option<usize>
    ensures some { IfSome result (λ bytes. bytes ≡ count * size) }
    ensures none { IsNone result → 2 ^ 64 ≤ count * size }
{
    usize::try_from(count).ok()?.checked_mul(size)
}
