ghost use Rattle.std.specs.Prelude.{◌≡◌, ◌+◌, ◌*◌, ◌<◌, ◌≤◌, ◌==◌, ℕ, List, [], ◌∷◌, length, option_map, IfSome, IsNone, IsSome};
ghost use Rattle.mbim_services.specs.EventLists.{IsEventAt, IsRange, cids_in, events_referred, pairs_in};
ghost use Rattle.mbim_services.specs.SubscribeLists.{list_of_buffer, numbers_of, pairs_referred};

use crate::events::{CidRange, first_number, range_at, references_of};
use std::marker::Model;
use uuid::Uuid;

/// The events of a list of subscriptions, as the list's buffer has them.
#[derive(Drop)]
pub struct EventList<'a> {
    buffer: &'a [u8],
    // For each event an offset and a size.
    references: &'a [u8],
}

impl<'a> Model for EventList<'a> {
    ghost use Rattle.std.specs.Prelude.{List};
    ghost use Rattle.kit_bytes.specs.Subscriptions.{Subscription};
    ghost use Rattle.mbim_services.specs.EventLists.{events_in, AreWhole};

    ghost Value = { List Subscription };

    ghost view = { events_in };

    ghost invariant = { AreWhole };
}

/// A service, and those of its CIDs that are subscribed to, none for all of them.
#[derive(Drop)]
pub struct Event<'a> {
    /// The service.
    pub uuid: Uuid,
    /// Its CIDs.
    pub cids: Cids<'a>,
}

/// CIDs, as a buffer has them.
#[derive(Drop)]
pub struct Cids<'a> {
    bytes: &'a [u8],
}

impl<'a> Model for Cids<'a> {
    ghost use Rattle.std.specs.Prelude.{List, ℕ};
    ghost use Rattle.mbim_services.specs.SubscribeLists.{numbers_of};

    ghost Value = { List ℕ };

    ghost view = { λ cids. numbers_of cids.bytes.now };
}

impl<'a> EventList<'a> {
    /// The events of a buffer, if it is the buffer of a list. It takes no memory, and time for each event,
    /// however many CIDs they have.
    pub fn read(buffer: &'a [u8]) -> Option<Self>
        ensures { option_map pairs_in result ≡ list_of_buffer buffer.now }
    {
        let references = references_of(buffer)?;
        Some(EventList { buffer, references })
    }

    /// How many there are.
    pub fn len(&self) -> usize
        ensures { result ≡ length self.now }
    {
        self.references.len() / 8
    }

    /// The event of this place.
    pub fn at(&self, place: usize) -> Event<'a>
        requires { place < length self.now }
        ensures { IsEventAt self.now place result.uuid result.cids }
    {
        event_of(self.buffer, nth_range(self.buffer, self.references, place))
    }
}

impl Cids<'_> {
    /// The next CID, and None at the end.
    pub fn next(&mut self) -> Option<u32>
        ensures some { IfSome result (λ cid. self.old ≡ cid ∷ self.new) }
        ensures none { IsNone result → (self.old ≡ []) × (self.new ≡ []) }
    {
        let (cid, bytes) = first_number(self.bytes)?;
        self.bytes = bytes;
        Some(cid)
    }

    /// Whether there are none.
    pub fn is_empty(&self) -> bool
        ensures { result ≡ (length self.now == 0) }
    {
        self.bytes.len() < 4
    }
}

// The event whose CIDs stand here.
fn event_of(buffer: &[u8], range: CidRange) -> Event<'_>
    requires { IsRange buffer.now range }
    ensures uuid { result.uuid ≡ range.uuid }
    ensures cids { result.cids ≡ cids_in buffer.now range }
{
    Event {
        uuid: range.uuid,
        cids: Cids {
            bytes: &buffer[range.start..range.end],
        },
    }
}

// Where the CIDs of the event of a place stand.
fn nth_range(buffer: &[u8], references: &[u8], place: usize) -> CidRange
    requires whole { IsSome (pairs_referred buffer.now (numbers_of references.now)) }
    requires place { 8 * place + 8 ≤ length references.now }
    ensures event { IsEventAt (events_referred buffer.now (numbers_of references.now)) place result.uuid (cids_in buffer.now result) }
    ensures range { IsRange buffer.now result }
{
    range_at(buffer, &references[8 * place..]).unwrap()
}
