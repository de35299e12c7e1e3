//! The events of a list in an order in which those that share CIDs stand one after another.
ghost use Rattle.std.specs.Prelude.{◌≡◌, ◌≤◌, ℕ, true, map};
ghost use Rattle.std.specs.List.{Contains};
ghost use Rattle.std.specs.List.Sorted.{IsPermutation};
ghost use Rattle.mbim_services.specs.SubscribeLists.{numbers_of};
ghost use Rattle.subscribe_lists.specs.Structures.{IsWholeAt, offsets};

use arrayvec::ArrayVec;
use kit_bytes::{u32_at, uuid_at};
use uuid::Uuid;

// How many events are brought in order: as many as a message can have.
const MOST_EVENTS: usize = 8_191;

// How many services are told apart: as many as a client can subscribe to.
const MOST_SERVICES: usize = 30;

/// For each event a number of its service and of its offset modulo 4, and the offset.
pub(crate) type Order = ArrayVec<(u32, u32), MOST_EVENTS>;

/// Brings the events of these references in order: by their services, then by their offsets modulo 4, then
/// by their offsets. Says whether there was room for all of them.
pub(crate) fn bring_in_order(buffer: &[u8], references: &[u8], order: &mut Order) -> bool
    requires whole { (offset : ℕ) → Contains (offsets (numbers_of references.now)) offset → IsWholeAt buffer.now offset }
    ensures { result ≡ true → IsPermutation (offsets (numbers_of references.now)) (map (λ it. it.1) order.new.items) }
{
    order.clear();
    let mut services = ArrayVec::new();
    let mut left = references;
    while 8 <= left.len() {
        if order.is_full() {
            return false;
        }
        let offset = u32_at(left, 0);
        let service = number_of(&mut services, uuid_at(buffer, offset as usize));
        order.push((4 * service + offset % 4, offset));
        left = &left[8..];
    }
    order.as_mut_slice().sort_unstable();
    true
}

// How many other services came before this one. Those for which there is no room have one number.
fn number_of(services: &mut ArrayVec<Uuid, MOST_SERVICES>, uuid: Uuid) -> u32
    ensures { result ≤ MOST_SERVICES }
{
    let count = services.len();
    let known = services.iter().position(|other| *other == uuid);
    let place = known.unwrap_or(count);
    if place == count {
        let _ = services.try_push(uuid);
    }
    place as u32
}
