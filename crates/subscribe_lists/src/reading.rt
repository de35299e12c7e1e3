ghost use Rattle.std.specs.Prelude.{◌≡◌, ◌≤◌, ◌+◌, ◌*◌, ◌&&◌, ◌∷◌, ◌++◌, [], true, bytes_eq, length, is_some, slice_range, ℕ, Some, IfSome, IsSome};
ghost use Rattle.std.specs.List.{Contains, list_any};
ghost use Rattle.kit_bytes.specs.Numbers.{number_at};
ghost use Rattle.kit_bytes.specs.Subscriptions.{normal_form, pairs_of};
ghost use Rattle.mbim_services.specs.EventLists.{pairs_in};
ghost use Rattle.mbim_services.specs.SubscribeLists.{list_of_buffer, numbers_of};
ghost use Rattle.subscriptions.specs.Lists.{IsNormal, covers, fits, has_cid};
ghost use Rattle.subscribe_lists.specs.ClientLists.{client_list, services, singles};
ghost use Rattle.subscribe_lists.specs.Structures.{IsWholeAt, events_at};

use crate::order::bring_in_order;
use crate::sweep::{Stretch, cids_at, is_further, stretch_at, without};
use arrayvec::ArrayVec;
use kit_bytes::u32_at;
use mbim_services::{Event, EventList, Events};
use subscriptions::{LONGEST_CLIENT_LIST, Pair, PairList};
use uuid::Uuid;

/// Reads the list of a client from the buffer of its command. Says whether the buffer has one, with no
/// more pairs than a client may have. It takes no memory.
pub fn read_list(buffer: &[u8], into: &mut PairList) -> bool
    ensures few { result ≡ is_some (client_list buffer.now) }
    ensures list { IfSome (client_list buffer.now) (λ list. into.new ≡ list) }
{
    let Some(events) = EventList::read(buffer) else {
        return false;
    };
    add_few(buffer, &events, into)
}

// The normal form of the pairs of events, if it is short. All CIDs of a service are added first: what is
// added then makes the list no shorter.
fn add_few(buffer: &[u8], events: &EventList<'_>, into: &mut PairList) -> bool
    requires { list_of_buffer buffer.now ≡ Some (pairs_in events.now) }
    ensures few { result ≡ fits LONGEST_CLIENT_LIST (pairs_in events.now) }
    ensures list { result ≡ true → into.new ≡ normal_form (pairs_in events.now) }
{
    if !add_services(events, into) {
        return false;
    }
    add_all(buffer, events, into)
}

// Adds the pairs that stand for all CIDs of a service to an empty list.
fn add_services(events: &EventList<'_>, into: &mut PairList) -> bool
    ensures few { result ≡ fits LONGEST_CLIENT_LIST (services (pairs_in events.now)) }
    ensures list { result ≡ true → into.new ≡ normal_form (services (pairs_in events.now)) }
{
    into.clear();
    for place in 0..events.len() {
        if !add_service(into, &events.at(place)) {
            return false;
        }
    }
    true
}

// Adds all pairs to a list that has those that stand for all CIDs of a service.
fn add_all(buffer: &[u8], events: &EventList<'_>, into: &mut PairList) -> bool
    requires list { list_of_buffer buffer.now ≡ Some (pairs_in events.now) }
    requires services { into.old ≡ normal_form (services (pairs_in events.now)) }
    requires few { length into.old ≤ LONGEST_CLIENT_LIST }
    ensures few { result ≡ fits LONGEST_CLIENT_LIST (pairs_in events.now) }
    ensures list { result ≡ true → into.new ≡ normal_form (pairs_in events.now) }
{
    let mut order = ArrayVec::new();
    if bring_in_order(buffer, references_of(buffer), &mut order) {
        return add_ordered(buffer, order.as_slice(), into);
    }
    add_in_turn(Events::read(buffer).unwrap(), into)
}

// The references of a list's buffer.
fn references_of(buffer: &[u8]) -> &[u8]
    requires { IsSome (list_of_buffer buffer.now) }
    ensures { result.now ≡ slice_range buffer.now 4 (4 + 8 * number_at buffer.now 0 4) }
{
    &buffer[4..4 + 8 * u32_at(buffer, 0) as usize]
}

// Adds the single CIDs of events. What is left of one behind the event that reached furthest is read alone,
// so that in order of their places no CID of a service is read twice.
fn add_ordered(buffer: &[u8], order: &[(u32, u32)], into: &mut PairList) -> bool
    requires whole { (at : ℕ × ℕ) → Contains order.now at → IsWholeAt buffer.now at.1 }
    requires services { into.old ≡ normal_form (services (pairs_in (events_at buffer.now order.now))) }
    requires few { length into.old ≤ LONGEST_CLIENT_LIST }
    ensures few { result ≡ fits LONGEST_CLIENT_LIST (pairs_in (events_at buffer.now order.now)) }
    ensures list { result ≡ true → into.new ≡ normal_form (pairs_in (events_at buffer.now order.now)) }
{
    let mut furthest = Stretch {
        uuid: Uuid::nil(),
        start: 0,
        end: 0,
    };
    for place in 0..order.len() {
        let stretch = stretch_at(buffer, order[place].1 as usize);
        let left = without(&stretch, &furthest);
        if !add_cids(into, left.uuid, cids_at(buffer, &left)) {
            return false;
        }
        if is_further(&furthest, &stretch) {
            furthest = stretch;
        }
    }
    true
}

// Adds pairs one after another.
fn add_in_turn(mut pairs: Events<'_>, into: &mut PairList) -> bool
    requires services { into.old ≡ normal_form (services pairs) }
    requires few { length into.old ≤ LONGEST_CLIENT_LIST }
    ensures few { result ≡ fits LONGEST_CLIENT_LIST pairs.entry }
    ensures list { result ≡ true → into.new ≡ normal_form pairs.entry }
{
    'pairs: while let Some(pair) = pairs.next() {
        if !add(into, pair.0, pair.1) {
            return false;
        }
    }
    true
}

// Adds all CIDs of the service, if the event stands for them.
fn add_service(into: &mut PairList, event: &Event<'_>) -> bool
    requires normal { IsNormal into.old }
    requires few { length into.old ≤ LONGEST_CLIENT_LIST }
    ensures few { result ≡ fits LONGEST_CLIENT_LIST (services (pairs_of event.now.uuid event.now.cids) ++ into.old) }
    ensures list { result ≡ true → into.new ≡ normal_form (services (pairs_of event.now.uuid event.now.cids) ++ into.old) }
{
    if !event.cids.is_empty() {
        return true;
    }
    add(into, event.uuid, None)
}

// Adds the CIDs of a service that bytes spell.
fn add_cids(into: &mut PairList, uuid: Uuid, bytes: &[u8]) -> bool
    requires normal { IsNormal into.old }
    requires few { length into.old ≤ LONGEST_CLIENT_LIST }
    ensures few { result ≡ fits LONGEST_CLIENT_LIST (singles uuid (numbers_of bytes.now) ++ into.old) }
    ensures list { result ≡ true → into.new ≡ normal_form (singles uuid (numbers_of bytes.now) ++ into.old) }
{
    // what the list has of the service stands from here on, whatever is added of it
    let first = first_of(into.pairs(), uuid);
    let mut left = bytes;
    while 4 <= left.len() {
        if !add_cid(into, first, uuid, u32_at(left, 0)) {
            return false;
        }
        left = &left[4..];
    }
    true
}

// Adds the CID of a service, unless the list has it from that place on: then nothing needs to be done.
fn add_cid(into: &mut PairList, first: usize, uuid: Uuid, cid: u32) -> bool
    requires { length into.old ≤ LONGEST_CLIENT_LIST }
    ensures few { result ≡ fits LONGEST_CLIENT_LIST ((uuid, Some cid) ∷ into.old) }
    ensures list { result ≡ true → into.new ≡ normal_form ((uuid, Some cid) ∷ into.old) }
{
    if stands(into.pairs(), first, uuid, cid) {
        return true;
    }
    add(into, uuid, Some(cid))
}

// Where the pairs of a service stand in a list, or would stand.
fn first_of(pairs: &[Pair], uuid: Uuid) -> usize {
    pairs.partition_point(|pair| pair.0.cmp(&uuid).is_lt())
}

// Whether one of the pairs from a place on is the CID of this service, or all of them.
fn stands(pairs: &[Pair], first: usize, uuid: Uuid, cid: u32) -> bool
    ensures { result ≡ true → list_any (λ other. covers other (uuid, Some cid)) pairs.now ≡ true }
{
    let from = first.min(pairs.len());
    some_stands(&pairs[from..], uuid, cid)
}

fn some_stands(pairs: &[Pair], uuid: Uuid, cid: u32) -> bool
    ensures { result ≡ list_any (λ other. has_cid other.1 (Some cid) && bytes_eq other.0 uuid) pairs.now }
{
    pairs.iter().any(|pair| is_it(pair, uuid, cid))
}

// The CID is compared first: the pairs are of one service, most often.
fn is_it(pair: &Pair, uuid: Uuid, cid: u32) -> bool
    ensures { result ≡ (has_cid pair.now.1 (Some cid) && bytes_eq pair.now.0 uuid) }
{
    pair.1.is_none_or(|number| number == cid) && pair.0 == uuid
}

// Adds the pair, and says whether the list is short with it.
fn add(into: &mut PairList, uuid: Uuid, cid: Option<u32>) -> bool
    ensures few { result ≡ fits LONGEST_CLIENT_LIST ((uuid, cid) ∷ into.old) }
    ensures list { result ≡ true → into.new ≡ normal_form ((uuid, cid) ∷ into.old) }
{
    if !into.push(uuid, cid) {
        return false;
    }
    into.len() <= LONGEST_CLIENT_LIST
}
