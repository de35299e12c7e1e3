//! The numbers in use in rising order, and beside each the key of its row. One is found by halves.
ghost use Rattle.std.specs.Prelude.{◌≡◌, ◌<◌, ◌≤◌, [], false, length, slice_index_or, IfOk, IfSome, IsNone};
ghost use Rattle.std.specs.List.{insert, remove};
ghost use Rattle.std.specs.Bool.{OnTrue, OnFalse};
ghost use Rattle.proxy_history.specs.Connections.{contains};
ghost use Rattle.proxy_history.specs.Requests as history;
ghost use Rattle.number_space.specs.Index.{Numbered, AreRising, IsBelowAt, IsPlaceOf, NumberAt, numbers_of};

use crate::numbers::{Numbers, put_at, take_at};
use std::alloc::{AllocError, Global};
use std::collections::VecDeque;
use std::marker::Model;

/// The numbers in use in rising order, and the keys of their rows.
#[derive(Drop)]
pub(crate) struct Index {
    numbers: Numbers,
    // the key at a place is that of the number there
    keys: VecDeque<usize>,
}

impl Model for Index {
    ghost use Rattle.std.specs.Prelude.{◌≡◌, length, min};
    ghost use Rattle.std.specs.VecDeque.{deque_capacity};
    ghost use Rattle.number_space.specs.Index.{Indexed, beside};

    ghost Value = { Indexed };

    ghost view = { λ i. record { entries = beside i.numbers.items i.keys.items; capacity = min i.numbers.capacity (deque_capacity i.keys) } };

    ghost invariant = { λ i. length i.keys.items ≡ length i.numbers.items };
}

impl Index {
    /// An index of nothing, with room for so many.
    pub(crate) fn open(alloc: Global, limit: usize) -> Result<Self, AllocError>
        ensures entries { IfOk result (λ index. index.entries ≡ []) }
        ensures room { IfOk result (λ index. limit ≤ index.capacity) }
    {
        Ok(Index {
            numbers: Numbers::open(alloc, limit)?,
            keys: VecDeque::with_capacity(alloc, limit)?,
        })
    }

    fn len(&self) -> usize
        ensures { result ≡ length self.now.entries }
    {
        self.numbers.len()
    }

    /// The numbers alone.
    pub(crate) fn numbers(&self) -> &Numbers
        ensures { result.now.items ≡ numbers_of self.now.entries }
    {
        &self.numbers
    }

    /// The key that stands there.
    pub(crate) fn key_at(&self, place: usize) -> usize
        requires { place < length self.now.entries }
        ensures { (d : Numbered) → result ≡ (slice_index_or self.now.entries place d).key }
    {
        self.keys[place]
    }

    fn is_below_at(&self, place: usize, number: u32) -> bool
        ensures there { OnTrue result (IsBelowAt number self.now.entries place) }
        ensures other { OnFalse result (¬ IsBelowAt number self.now.entries place) }
    {
        match self.numbers.get(place) {
            Some(other) => other < number,
            None => false,
        }
    }

    fn is_at(&self, place: usize, number: u32) -> bool
        ensures there { OnTrue result (NumberAt number self.now.entries place) }
        ensures other { OnFalse result (¬ NumberAt number self.now.entries place) }
    {
        match self.numbers.get(place) {
            Some(other) => number == other,
            None => false,
        }
    }

    fn place_by_halves(&self, number: u32) -> usize
        requires { AreRising self.now.entries }
        ensures { IsPlaceOf number self.now.entries result }
    {
        self.numbers.count_below(number)
    }

    // Where the number stands, or else where it would stand. The ends are tried first.
    fn place_of(&self, number: u32) -> usize
        requires { AreRising self.now.entries }
        ensures { IsPlaceOf number self.now.entries result }
    {
        let len = self.len();
        if self.is_below_at(len.saturating_sub(1), number) {
            return len;
        }
        if !self.is_below_at(0, number) {
            return 0;
        }
        self.place_by_halves(number)
    }

    /// Where the number stands.
    #[inline(always)]
    pub(crate) fn find(&self, number: u32) -> Option<usize>
        requires { AreRising self.now.entries }
        ensures found { IfSome result (NumberAt number self.now.entries) }
        ensures absent { IsNone result → contains number (numbers_of self.now.entries) ≡ false }
    {
        // most are answered in the order in which they were given
        if self.is_at(0, number) {
            return Some(0);
        }
        self.find_by_halves(number)
    }

    #[inline(never)]
    fn find_by_halves(&self, number: u32) -> Option<usize>
        requires { AreRising self.now.entries }
        ensures found { IfSome result (NumberAt number self.now.entries) }
        ensures absent { IsNone result → contains number (numbers_of self.now.entries) ≡ false }
    {
        let place = self.place_by_halves(number);
        if self.is_at(place, number) {
            Some(place)
        } else {
            None
        }
    }

    // Whether the number is seen to be greater than all.
    fn is_above_all(&self, number: u32) -> bool
        requires { AreRising self.now.entries }
        ensures { OnTrue result (IsPlaceOf number self.now.entries (length self.now.entries)) }
    {
        let len = self.len();
        if len == 0 {
            return true;
        }
        self.is_below_at(len - 1, number)
    }

    /// The first number after the last one that isn't in use, and where it would stand.
    pub(crate) fn next_free(&self, top: u32, last: u32) -> (u32, usize)
        requires { AreRising self.now.entries }
        ensures number { result.0 ≡ history.free_from (length self.now.entries) top (numbers_of self.now.entries) (history.following top last) }
        ensures place { IsPlaceOf result.0 self.now.entries result.1 }
    {
        let number = following(top, last);
        if self.is_above_all(number) {
            return (number, self.len());
        }
        self.free_from(top, number)
    }

    // The first number from this one on that isn't in use, and where it would stand. Only numbers in use
    // that follow it are passed over.
    #[inline(never)]
    fn free_from(&self, top: u32, first: u32) -> (u32, usize)
        requires { AreRising self.now.entries }
        ensures number { result.0 ≡ history.free_from (length self.now.entries) top (numbers_of self.now.entries) first }
        ensures place { IsPlaceOf result.0 self.now.entries result.1 }
    {
        let mut number = first;
        let mut place = self.place_of(number);
        for _ in 0..self.len() {
            if !self.is_at(place, number) {
                return (number, place);
            }
            let next = following(top, number);
            let behind = place + 1;
            place = self.next_place(behind, number, next);
            number = next;
        }
        (number, place)
    }

    // Where the next number would stand: right behind the one before it, unless it starts anew.
    fn next_place(&self, behind: usize, number: u32, next: u32) -> usize
        requires rising { AreRising self.now.entries }
        requires behind { number < next → IsPlaceOf next self.now.entries behind }
        ensures { IsPlaceOf next self.now.entries result }
    {
        if number < next {
            behind
        } else {
            self.place_of(next)
        }
    }

    /// Puts a number and its key at their place. This takes no memory.
    pub(crate) fn put(&mut self, place: usize, number: u32, key: usize)
        requires place { place ≤ length self.old.entries }
        requires room { length self.old.entries < self.old.capacity }
        ensures entries { self.new.entries ≡ insert self.old.entries place (record { number = number; key = key }) }
        ensures capacity { self.old.capacity ≤ self.new.capacity }
    {
        self.numbers.put(place, number);
        put_at(&mut self.keys, place, key);
    }

    /// Takes the number out that stands there, and gives its key.
    pub(crate) fn take(&mut self, place: usize) -> usize
        requires { place < length self.old.entries }
        ensures key { (d : Numbered) → result ≡ (slice_index_or self.old.entries place d).key }
        ensures entries { self.new.entries ≡ remove self.old.entries place }
        ensures capacity { self.new.capacity ≡ self.old.capacity }
    {
        self.numbers.remove(place);
        take_at(&mut self.keys, place)
    }

    /// Takes all entries out.
    pub(crate) fn clear(&mut self)
        ensures entries { self.new.entries ≡ [] }
        ensures capacity { self.new.capacity ≡ self.old.capacity }
    {
        self.numbers.clear();
        self.keys.clear();
    }
}

// The number after this one, cyclic from 1 to the top.
fn following(top: u32, number: u32) -> u32
    ensures { result ≡ history.following top number }
{
    if number < top { number + 1 } else { 1 }
}
