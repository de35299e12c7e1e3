//! How often pairs were counted. Each counted pair stands once, in order, and is found by halves.
ghost use Rattle.std.specs.Prelude.{◌≡◌, ◌+◌, ◌<◌, ◌≤◌, List, [], length, vec_capacity, IfOk};
ghost use Rattle.std.specs.Bool.{OnTrue, OnFalse};
ghost use Rattle.kit_bytes.specs.Subscriptions.{Pair as TablePair, normal_form};
ghost use Rattle.subscriptions.specs.Counts.{AreCounts, AreCountsOf, IsPlaceOf, StandsAt, count_of, once, times_in, total};

use crate::client_list::ClientList;
use crate::pair_list::{LONGEST_LIST, Pair, PairList, is_before, is_same, put};
use std::alloc::{AllocError, Global};
use std::marker::Model;

/// How many pairs are counted at most: those of a whole list, and those of a client's list that takes the place of
/// another one.
pub const MOST_COUNTED: usize = 1_950;

/// A pair, and how often it was counted.
#[derive(Clone, Copy)]
pub struct Counted {
    pub pair: Pair,
    pub times: usize,
}

/// For each pair of some lists, how many of them have it.
#[derive(Drop)]
pub struct Counts {
    counts: Vec<Counted>,
}

impl Model for Counts {
    ghost use Rattle.std.specs.Prelude.{◌≤◌, List, vec_capacity};
    ghost use Rattle.subscriptions.specs.Counts.{AreCounts, total};
    ghost use Rattle.subscriptions.specs.declared.counts.Counted.{Counted as TableCounted};

    ghost Value = { List TableCounted };

    ghost view = { λ c. c.counts.items };

    ghost invariant = { λ c. record {
      counts : AreCounts c.counts.items;
      few : total c.counts.items ≤ 1950;
      room : 1950 ≤ vec_capacity c.counts;
    } };
}

impl Counts {
    /// Nothing is counted. This takes all the memory that it will ever need.
    pub fn open(alloc: Global) -> Result<Self, AllocError>
        ensures { IfOk result (λ counts. counts ≡ []) }
    {
        Ok(Counts {
            counts: Vec::with_capacity(alloc, MOST_COUNTED)?,
        })
    }

    /// Counts the pairs of a client's list.
    pub fn add(&mut self, list: &ClientList)
        requires { total self.old + length list.now ≤ MOST_COUNTED }
        ensures counted { (pair : TablePair) → count_of pair self.new ≡ count_of pair self.old + times_in pair list.now }
        ensures total { total self.new ≡ total self.old + length list.now }
    {
        count_all(&mut self.counts, list.pairs());
    }

    /// Takes back that the pairs of a client's list were counted.
    pub fn remove(&mut self, list: &ClientList)
        requires { (pair : TablePair) → times_in pair list.now ≤ count_of pair self.old }
        ensures counted { (pair : TablePair) → count_of pair self.new + times_in pair list.now ≡ count_of pair self.old }
        ensures total { total self.new + length list.now ≡ total self.old }
    {
        uncount_all(&mut self.counts, list.pairs());
    }

    /// Writes the normal form of the lists that were counted into this list.
    pub fn write(&self, into: &mut PairList)
        requires { total self.now ≤ LONGEST_LIST }
        ensures { (pairs : List TablePair) → AreCountsOf pairs self.now → into.new ≡ normal_form pairs }
    {
        into.gather(&self.counts);
    }
}

fn count_all(counts: &mut Vec<Counted>, pairs: &[Pair])
    requires counts { AreCounts counts.old.items }
    requires few { total counts.old.items + length pairs.now ≤ MOST_COUNTED }
    requires room { MOST_COUNTED ≤ vec_capacity counts.old }
    ensures counts { AreCounts counts.new.items }
    ensures counted { (pair : TablePair) → count_of pair counts.new.items ≡ count_of pair counts.old.items + times_in pair pairs.now }
    ensures total { total counts.new.items ≡ total counts.old.items + length pairs.now }
    ensures capacity { vec_capacity counts.old ≤ vec_capacity counts.new }
{
    for pair in pairs {
        count(counts, pair);
    }
}

fn uncount_all(counts: &mut Vec<Counted>, pairs: &[Pair])
    requires counts { AreCounts counts.old.items }
    requires there { (pair : TablePair) → times_in pair pairs.now ≤ count_of pair counts.old.items }
    ensures counts { AreCounts counts.new.items }
    ensures counted { (pair : TablePair) → count_of pair counts.new.items + times_in pair pairs.now ≡ count_of pair counts.old.items }
    ensures total { total counts.new.items + length pairs.now ≡ total counts.old.items }
    ensures capacity { vec_capacity counts.old ≤ vec_capacity counts.new }
{
    for pair in pairs {
        uncount(counts, pair);
    }
}

// Counts a pair once more, which takes no memory.
fn count(counts: &mut Vec<Counted>, pair: &Pair)
    requires counts { AreCounts counts.old.items }
    requires few { total counts.old.items < MOST_COUNTED }
    requires room { MOST_COUNTED ≤ vec_capacity counts.old }
    ensures counts { AreCounts counts.new.items }
    ensures counted { (other : TablePair) → count_of other counts.new.items ≡ count_of other counts.old.items + once other pair.now }
    ensures total { total counts.new.items ≡ total counts.old.items + 1 }
    ensures capacity { vec_capacity counts.old ≤ vec_capacity counts.new }
{
    let place = place_of(counts, pair);
    if stands_at(counts, place, pair) {
        counts[place].times += 1;
        return;
    }
    let first = Counted {
        pair: *pair,
        times: 1,
    };
    put(counts, place, first);
}

// Takes back that a pair was counted once.
fn uncount(counts: &mut Vec<Counted>, pair: &Pair)
    requires counts { AreCounts counts.old.items }
    requires there { 0 < count_of pair.now counts.old.items }
    ensures counts { AreCounts counts.new.items }
    ensures counted { (other : TablePair) → count_of other counts.new.items + once other pair.now ≡ count_of other counts.old.items }
    ensures total { total counts.new.items + 1 ≡ total counts.old.items }
    ensures capacity { vec_capacity counts.old ≤ vec_capacity counts.new }
{
    let place = place_of(counts, pair);
    if counts[place].times == 1 {
        counts.remove(place);
        return;
    }
    counts[place].times -= 1;
}

// Where the pair stands, or else where it would stand.
fn place_of(counts: &[Counted], pair: &Pair) -> usize
    requires { AreCounts counts.now }
    ensures { IsPlaceOf pair.now counts.now result }
{
    counts.partition_point(|counted| is_before(&counted.pair, pair))
}

fn stands_at(counts: &[Counted], place: usize, pair: &Pair) -> bool
    ensures there { OnTrue result (StandsAt pair.now counts.now place) }
    ensures other { OnFalse result (¬ StandsAt pair.now counts.now place) }
{
    match counts.get(place) {
        Some(counted) => is_same(pair, &counted.pair),
        None => false,
    }
}
