ghost use Rattle.std.specs.Prelude.{◌≡◌, ◌+◌, ◌<◌, ◌≤◌, ◌||◌, false, nat_lt, ◌∷◌, ◌++◌, [], not, filter, length, take, drop, slice_index_or, vec_len, vec_capacity, IfOk};
ghost use Rattle.std.specs.List.{dedup, list_any};
ghost use Rattle.std.specs.Ordering.{is_lt};
ghost use Rattle.kit_bytes.specs.Subscriptions.{normal_form, pair_cmp};
ghost use Rattle.subscriptions.specs.Counts.{AreCounts, is_same, pairs_in};
ghost use Rattle.subscriptions.specs.Lists.{IsNormal, covers, fits, pushed};

use crate::client_list::ClientList;
use crate::counts::Counted;
use std::alloc::{AllocError, Global};
use std::marker::Model;
use uuid::Uuid;

/// One CID of the service of this UUID, or None for all of them.
pub type Pair = (Uuid, Option<u32>);

/// How many pairs a list may have: those of 64 connections with 30 pairs each.
pub const LONGEST_LIST: usize = 1_920;

/// A list of subscriptions in normal form: in order, and with no single CID beside all CIDs of its
/// service. It has at most 1,920 pairs.
#[derive(Drop)]
pub struct PairList {
    pairs: Vec<Pair>,
}

impl Model for PairList {
    ghost use Rattle.std.specs.Prelude.{◌≤◌, List, length, vec_capacity};
    ghost use Rattle.kit_bytes.specs.Subscriptions.{Pair as TablePair};
    ghost use Rattle.subscriptions.specs.Lists.{IsNormal};

    ghost Value = { List TablePair };

    ghost view = { λ list. list.pairs.items };

    ghost invariant = { λ list. record {
      normal : IsNormal list.pairs.items;
      few : length list.pairs.items ≤ 1920;
      room : 1920 ≤ vec_capacity list.pairs;
    } };
}

impl PairList {
    /// The empty list. This takes all the memory that it will ever need.
    pub fn open(alloc: Global) -> Result<Self, AllocError>
        ensures { IfOk result (λ list. list ≡ []) }
    {
        Ok(PairList {
            pairs: Vec::with_capacity(alloc, LONGEST_LIST)?,
        })
    }

    /// Adds a pair, unless the normal form with it would have more than 1,920 pairs: then nothing
    /// changes. Says whether it was added, or stood for already.
    pub fn push(&mut self, uuid: Uuid, cid: Option<u32>) -> bool
        ensures fits { result ≡ fits LONGEST_LIST ((uuid, cid) ∷ self.old) }
        ensures pushed { self.new ≡ pushed LONGEST_LIST (uuid, cid) self.old }
    {
        let pair = (uuid, cid);
        if is_covered(&self.pairs, &pair) {
            return true;
        }
        if !has_room(&self.pairs, &pair) {
            return false;
        }
        add(&mut self.pairs, pair);
        true
    }

    /// Empties the list.
    pub fn clear(&mut self)
        ensures { self.new ≡ [] }
    {
        self.pairs.clear();
    }

    /// How many pairs it has.
    pub fn len(&self) -> usize
        ensures count { result ≡ length self.now }
        ensures limit { length self.now ≤ LONGEST_LIST }
    {
        self.pairs.len()
    }

    /// The pair of this index.
    pub fn at(&self, index: usize) -> Pair
        requires { index < length self.now }
        ensures { result ≡ slice_index_or self.now index result }
    {
        self.pairs[index]
    }

    // The normal form of the pairs that were counted.
    pub(crate) fn gather(&mut self, counts: &[Counted])
        requires counts { AreCounts counts.now }
        requires few { length counts.now ≤ LONGEST_LIST }
        ensures { self.new ≡ normal_form (pairs_in counts.now) }
    {
        self.pairs.clear();
        append_counted(&mut self.pairs, counts);
        drop_covered(&mut self.pairs);
    }

    /// Takes the pairs of a client's list.
    pub fn copy(&mut self, list: &ClientList)
        ensures { self.new ≡ list.now }
    {
        self.pairs.clear();
        let _ = self.pairs.extend_from_slice(list.pairs());
    }

    /// Takes the pairs of another list.
    pub fn set(&mut self, list: &PairList)
        ensures { self.new ≡ list.now }
    {
        self.pairs.clear();
        let _ = self.pairs.extend_from_slice(list.pairs());
    }

    /// All pairs.
    pub fn pairs(&self) -> &[Pair]
        ensures pairs { result.now ≡ self.now }
        ensures normal { IsNormal self.now }
        ensures limit { length self.now ≤ LONGEST_LIST }
    {
        &self.pairs
    }
}

/// Brings pairs into normal form, in their own memory.
pub fn normalize(pairs: &mut Vec<Pair>)
    ensures items { pairs.new.items ≡ normal_form pairs.old.items }
    ensures capacity { vec_capacity pairs.old ≤ vec_capacity pairs.new }
{
    pairs.sort_unstable();
    drop_covered(pairs);
}

// Drops each pair that the last one before it covers.
fn drop_covered(pairs: &mut Vec<Pair>)
    ensures items { pairs.new.items ≡ dedup (λ pair last. covers last pair) pairs.old.items }
    ensures capacity { vec_capacity pairs.old ≤ vec_capacity pairs.new }
{
    pairs.dedup_by(|pair, last| covers(last, pair));
}

// Adds the pairs that were counted behind those of a list that has the room for them.
fn append_counted(pairs: &mut Vec<Pair>, counts: &[Counted])
    requires { vec_len pairs.old + length counts.now ≤ vec_capacity pairs.old }
    ensures items { pairs.new.items ≡ pairs.old.items ++ pairs_in counts.now }
    ensures capacity { vec_capacity pairs.old ≤ vec_capacity pairs.new }
{
    for counted in counts {
        pairs.push_reserved(counted.pair);
    }
}

// Whether the pair is the other one, or all CIDs of its service.
fn covers(pair: &Pair, other: &Pair) -> bool
    ensures { result ≡ covers pair.now other.now }
{
    pair.0 == other.0 && (pair.1.is_none() || pair.1 == other.1)
}

pub(crate) fn is_same(pair: &Pair, other: &Pair) -> bool
    ensures { result ≡ is_same pair.now other.now }
{
    pair.cmp(other).is_eq()
}

// Whether the pair stands before the other one.
pub(crate) fn is_before(pair: &Pair, other: &Pair) -> bool
    ensures { result ≡ is_lt (pair_cmp pair.now other.now) }
{
    pair.cmp(other).is_lt()
}

fn is_covered(pairs: &[Pair], pair: &Pair) -> bool
    ensures { result ≡ list_any (λ other. covers other pair.now) pairs.now }
{
    pairs.iter().any(|other| covers(other, pair))
}

// Whether a pair more fits, in the place of those that it covers.
fn has_room(pairs: &[Pair], pair: &Pair) -> bool
    ensures { result ≡ (nat_lt (length pairs.now) LONGEST_LIST || list_any (λ other. covers pair.now other) pairs.now) }
{
    pairs.len() < LONGEST_LIST || covers_some(pairs, pair)
}

fn covers_some(pairs: &[Pair], pair: &Pair) -> bool
    ensures { result ≡ list_any (λ other. covers pair.now other) pairs.now }
{
    pairs.iter().any(|other| covers(pair, other))
}

// Adds a pair that no other covers, in the place of those that it covers, which takes no memory.
fn add(pairs: &mut Vec<Pair>, pair: Pair)
    requires normal { IsNormal pairs.old.items }
    requires uncovered { list_any (λ other. covers other pair) pairs.old.items ≡ false }
    requires room { length (filter (λ other. not (covers pair other)) pairs.old.items) < vec_capacity pairs.old }
    ensures items { pairs.new.items ≡ normal_form (pair ∷ pairs.old.items) }
    ensures capacity { vec_capacity pairs.old ≤ vec_capacity pairs.new }
{
    remove_covered(pairs, &pair);
    let place = pairs.partition_point(|other| is_before(other, &pair));
    put(pairs, place, pair);
}

// Removes what the pair covers.
fn remove_covered(pairs: &mut Vec<Pair>, pair: &Pair)
    ensures items { pairs.new.items ≡ filter (λ other. not (covers pair.now other)) pairs.old.items }
    ensures capacity { vec_capacity pairs.old ≤ vec_capacity pairs.new }
{
    pairs.retain(|other| !covers(pair, other));
}

// Puts an item at its place in a list that has the room for it, which takes no memory.
pub(crate) fn put<T: Drop>(items: &mut Vec<T>, place: usize, item: T)
    requires place { place ≤ vec_len items.old }
    requires room { vec_len items.old < vec_capacity items.old }
    ensures items { items.new.items ≡ take place items.old.items ++ item ∷ drop place items.old.items }
    ensures capacity { vec_capacity items.old ≤ vec_capacity items.new }
{
    let _ = items.insert(place, item);
}
