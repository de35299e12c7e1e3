//! Where the CIDs of events stand, and what is left of them behind those of another event.
ghost use Rattle.std.specs.Prelude.{◌≡◌, ℕ, ◌+◌, List, slice_range};
ghost use Rattle.subscribe_lists.specs.Structures.{IsWhole, IsWholeAt, Leaves, end_at};

use kit_bytes::{u32_at, uuid_at};
use uuid::Uuid;

/// Where the CIDs of a service stand in a buffer.
#[derive(Clone, Copy)]
pub(crate) struct Stretch {
    pub(crate) uuid: Uuid,
    pub(crate) start: usize,
    pub(crate) end: usize,
}

/// Where the CIDs of the event of an offset stand.
pub(crate) fn stretch_at(buffer: &[u8], offset: usize) -> Stretch
    requires { IsWholeAt buffer.now offset }
    ensures uuid { result.uuid ≡ slice_range buffer.now offset (offset + 16) }
    ensures start { result.start ≡ offset + 20 }
    ensures end { result.end ≡ end_at buffer.now offset }
{
    let start = offset + 20;
    Stretch {
        uuid: uuid_at(buffer, offset),
        start,
        end: start + 4 * u32_at(buffer, offset + 16) as usize,
    }
}

/// The CIDs that stand there.
pub(crate) fn cids_at<'a>(buffer: &'a [u8], stretch: &Stretch) -> &'a [u8]
    requires { IsWhole buffer.now stretch.now }
    ensures { result.now ≡ slice_range buffer.now stretch.now.start stretch.now.end }
{
    &buffer[stretch.start..stretch.end]
}

/// What is left of CIDs without those in front that another event has, if it is one of the same service and
/// its CIDs stand at the same places.
pub(crate) fn without(stretch: &Stretch, other: &Stretch) -> Stretch
    ensures { (buffer : List ℕ) → IsWhole buffer stretch.now → IsWhole buffer other.now → Leaves buffer stretch.now other.now result }
{
    if stretch.uuid != other.uuid {
        return *stretch;
    }
    if stretch.start % 4 != other.start % 4 {
        return *stretch;
    }
    if other.start <= stretch.start && stretch.start < other.end {
        return Stretch {
            start: other.end.min(stretch.end),
            ..*stretch
        };
    }
    *stretch
}

/// Whether the CIDs of the second reach further, or have no places in common with those of the first.
pub(crate) fn is_further(first: &Stretch, second: &Stretch) -> bool {
    first.uuid != second.uuid || first.start % 4 != second.start % 4 || first.end < second.end
}
