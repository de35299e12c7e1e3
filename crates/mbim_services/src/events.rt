ghost use Rattle.std.specs.Prelude.{◌≡◌, ◌+◌, ◌*◌, ◌<◌, ◌≤◌, [], ◌∷◌, length, option_map, is_some, IfSome, IsNone};
ghost use Rattle.kit_bytes.specs.Numbers.{number_at};
ghost use Rattle.kit_bytes.specs.Subscriptions.{pairs_of};
ghost use Rattle.mbim_services.specs.EventLists.{IsRange, cids_in, subscription_at, subscription_of_range};
ghost use Rattle.mbim_services.specs.SubscribeLists.{list_of_buffer, numbers_of, pairs_at, pairs_referred};

use kit_bytes::{u32_at, uuid_at};
use std::marker::Model;
use uuid::Uuid;

/// The pairs of a list of subscriptions, read from the list's buffer one after another: the UUID of a
/// service, and one of its CIDs, or None for all of them.
#[derive(Drop)]
pub struct Events<'a> {
    buffer: &'a [u8],
    // The references that are left, each an offset and a size.
    references: &'a [u8],
    // The service at hand, and those of its CIDs that are left.
    uuid: Uuid,
    cids: &'a [u8],
}

impl<'a> Model for Events<'a> {
    ghost use Rattle.std.specs.Prelude.{List};
    ghost use Rattle.kit_bytes.specs.Subscriptions.{Pair};
    ghost use Rattle.mbim_services.specs.Events.{pairs_left, AreWhole};

    ghost Value = { List Pair };

    ghost view = { pairs_left };

    ghost invariant = { AreWhole };
}

impl<'a> Events<'a> {
    /// The pairs of a buffer, if it is the buffer of a list. It takes no memory, and time for each event,
    /// however many CIDs they have.
    pub fn read(buffer: &'a [u8]) -> Option<Self>
        ensures { result ≡ list_of_buffer buffer.now }
    {
        let references = references_of(buffer)?;
        Some(Events {
            buffer,
            references,
            uuid: Uuid::nil(),
            cids: &[],
        })
    }

    /// The next pair, and None at the end. An event without CIDs gives one pair.
    pub fn next(&mut self) -> Option<(Uuid, Option<u32>)>
        ensures some { IfSome result (λ pair. self.old ≡ pair ∷ self.new) }
        ensures none { IsNone result → (self.old ≡ []) × (self.new ≡ []) }
    {
        if let Some((cid, cids)) = first_number(self.cids) {
            self.cids = cids;
            return Some((self.uuid, Some(cid)));
        }
        if self.references.len() < 8 {
            return None;
        }
        let range = range_at(self.buffer, self.references)?;
        self.references = &self.references[8..];
        self.uuid = range.uuid;
        let Some((cid, cids)) = first_number(&self.buffer[range.start..range.end]) else {
            return Some((range.uuid, None));
        };
        self.cids = cids;
        Some((range.uuid, Some(cid)))
    }
}

/// The references of a list's buffer, if it is the buffer of a list: if each points at a whole event.
pub(crate) fn references_of(buffer: &[u8]) -> Option<&[u8]>
    ensures pairs { IfSome result (λ references. pairs_referred buffer.now (numbers_of references.now) ≡ list_of_buffer buffer.now) }
    ensures whole { is_some result ≡ is_some (list_of_buffer buffer.now) }
{
    if buffer.len() < 4 {
        return None;
    }
    let room = 8 * u32_at(buffer, 0) as usize;
    if buffer.len() < 4 + room {
        return None;
    }
    let references = &buffer[4..4 + room];
    if !are_whole(buffer, references) {
        return None;
    }
    Some(references)
}

/// Where in a buffer the CIDs of a service stand, none for all of them.
#[derive(Clone, Copy)]
pub(crate) struct CidRange {
    pub(crate) uuid: Uuid,
    pub(crate) start: usize,
    pub(crate) end: usize,
}

// Where the CIDs of the event stand at which the first of these references points, if it is whole.
pub(crate) fn range_at(buffer: &[u8], references: &[u8]) -> Option<CidRange>
    requires { 8 ≤ length references.now }
    ensures pairs { option_map (λ range. pairs_of range.uuid (cids_in buffer.now range)) result ≡ pairs_at buffer.now (number_at references.now 0 4) (number_at references.now 4 4) }
    ensures event { IfSome result (λ range. subscription_of_range buffer.now range ≡ subscription_at buffer.now (number_at references.now 0 4) (number_at references.now 4 4)) }
    ensures range { IfSome result (λ range. IsRange buffer.now range) }
{
    let offset = u32_at(references, 0) as usize;
    let size = u32_at(references, 4) as usize;
    if buffer.len() < offset + size {
        return None;
    }
    let room = room_of(&buffer[offset..offset + size])?;
    let start = offset + 20;
    Some(CidRange {
        uuid: uuid_at(buffer, offset),
        start,
        end: start + room,
    })
}

// How many bytes the CIDs of a structure have, if it is whole.
fn room_of(structure: &[u8]) -> Option<usize>
    ensures some { IfSome result (λ room. (room ≡ 4 * number_at structure.now 16 4) × (20 + room ≤ length structure.now)) }
    ensures none { IsNone result → length structure.now < 20 + 4 * number_at structure.now 16 4 }
{
    if structure.len() < 20 {
        return None;
    }
    let room = 4 * u32_at(structure, 16) as usize;
    if structure.len() < 20 + room {
        return None;
    }
    Some(room)
}

// Whether each of these references points at a whole event.
fn are_whole(buffer: &[u8], references: &[u8]) -> bool
    ensures { result ≡ is_some (pairs_referred buffer.now (numbers_of references.now)) }
{
    let mut left = references;
    while 8 <= left.len() {
        if range_at(buffer, left).is_none() {
            return false;
        }
        left = &left[8..];
    }
    true
}

// The first of the numbers that bytes spell, and the bytes behind it.
pub(crate) fn first_number(bytes: &[u8]) -> Option<(u32, &[u8])>
    ensures some { IfSome result (λ first. numbers_of bytes.now ≡ first.0 ∷ numbers_of first.1.now) }
    ensures none { IsNone result → numbers_of bytes.now ≡ [] }
{
    if bytes.len() < 4 {
        return None;
    }
    Some((u32_at(bytes, 0), &bytes[4..]))
}
