//! A list of numbers that others may read.
ghost use Rattle.std.specs.Prelude.{◌≡◌, ◌<◌, ◌≤◌, ◌==◌, [], true, false, nat_lt, length, slice_index_or, IfOk, IfSome, IsSome, IsNone};
ghost use Rattle.std.specs.List.{insert, remove};
ghost use Rattle.std.specs.List.Sorted.{IsPartitionPoint};
ghost use Rattle.std.specs.VecDeque.{deque_capacity};
ghost use Rattle.std.specs.VecDeque.Iter.{deque_iter_rest};
ghost use Rattle.kit_bytes.specs.Sorted.{IsInOrder};

use std::alloc::{AllocError, Global};
use std::collections::VecDeque;
use std::collections::vec_deque::Iter;
use std::marker::Model;

/// A list of numbers. A space lends those in use in rising order.
#[derive(Drop)]
pub struct Numbers {
    items: VecDeque<u32>,
}

impl Model for Numbers {
    ghost use Rattle.std.specs.VecDeque.{deque_capacity};
    ghost use Rattle.number_space.specs.Index.{Listed};

    ghost Value = { Listed };

    ghost view = { λ n. record { items = n.items.items; capacity = deque_capacity n.items } };
}

impl Numbers {
    pub(crate) fn open(alloc: Global, limit: usize) -> Result<Self, AllocError>
        ensures items { IfOk result (λ numbers. numbers.items ≡ []) }
        ensures room { IfOk result (λ numbers. limit ≤ numbers.capacity) }
    {
        Ok(Numbers {
            items: VecDeque::with_capacity(alloc, limit)?,
        })
    }

    /// How many numbers there are.
    pub fn len(&self) -> usize
        ensures { result ≡ length self.now.items }
    {
        self.items.len()
    }

    /// Whether there is none.
    pub fn is_empty(&self) -> bool
        ensures { result ≡ (length self.now.items == 0) }
    {
        self.items.is_empty()
    }

    /// The number at this place, from 0 on; none behind the last one.
    pub fn get(&self, place: usize) -> Option<u32>
        ensures value { IfSome result (λ number. number ≡ slice_index_or self.now.items place number) }
        ensures within { IsSome result → place < length self.now.items }
        ensures behind { IsNone result → length self.now.items ≤ place }
    {
        let number = self.items.get(place)?;
        Some(*number)
    }

    /// The numbers in turn.
    pub fn iter(&self) -> Iter<'_, u32>
        ensures { deque_iter_rest result ≡ self.now.items }
    {
        self.items.iter()
    }

    /// How many of the numbers, which rise, are below this one.
    pub(crate) fn count_below(&self, number: u32) -> usize
        requires { IsInOrder (λ a b. a < b) self.now.items }
        ensures within { result ≤ length self.now.items }
        ensures below { IsPartitionPoint (λ n. nat_lt n number ≡ true) (λ n. nat_lt n number ≡ false) self.now.items result }
    {
        self.items.partition_point(|other| *other < number)
    }

    /// Puts a number at its place. This takes no memory.
    pub(crate) fn put(&mut self, place: usize, number: u32)
        requires place { place ≤ length self.old.items }
        requires room { length self.old.items < self.old.capacity }
        ensures items { self.new.items ≡ insert self.old.items place number }
        ensures capacity { self.old.capacity ≤ self.new.capacity }
    {
        put_at(&mut self.items, place, number);
    }

    /// Takes the number out that stands there.
    pub(crate) fn remove(&mut self, place: usize)
        requires { place < length self.old.items }
        ensures items { self.new.items ≡ remove self.old.items place }
        ensures capacity { self.new.capacity ≡ self.old.capacity }
    {
        let _ = take_at(&mut self.items, place);
    }

    pub(crate) fn clear(&mut self)
        ensures items { self.new.items ≡ [] }
        ensures capacity { self.new.capacity ≡ self.old.capacity }
    {
        self.items.clear();
    }
}

/// Puts a value at its place. This takes no memory.
pub(crate) fn put_at<T: Drop>(queue: &mut VecDeque<T>, place: usize, value: T)
    requires place { place ≤ length queue.old.items }
    requires room { length queue.old.items < deque_capacity queue.old }
    ensures items { queue.new.items ≡ insert queue.old.items place value }
    ensures capacity { deque_capacity queue.old ≤ deque_capacity queue.new }
{
    if is_end(queue, place) {
        queue.push_back_reserved(value);
        return;
    }
    put_between(queue, place, value);
}

// Where values have to move aside.
#[inline(never)]
fn put_between<T: Drop>(queue: &mut VecDeque<T>, place: usize, value: T)
    requires place { place ≤ length queue.old.items }
    requires room { length queue.old.items < deque_capacity queue.old }
    ensures items { queue.new.items ≡ insert queue.old.items place value }
    ensures capacity { deque_capacity queue.old ≤ deque_capacity queue.new }
{
    let _ = queue.insert(place, value);
}

fn is_end<T>(queue: &VecDeque<T>, place: usize) -> bool
    ensures { result ≡ (place == length queue.now.items) }
{
    place == queue.len()
}

/// Takes the value out that stands there.
pub(crate) fn take_at<T>(queue: &mut VecDeque<T>, place: usize) -> T
    requires { place < length queue.old.items }
    ensures value { (d : T) → result ≡ slice_index_or queue.old.items place d }
    ensures items { queue.new.items ≡ remove queue.old.items place }
    ensures capacity { deque_capacity queue.new ≡ deque_capacity queue.old }
{
    if place == 0 {
        return queue.pop_front().unwrap();
    }
    take_between(queue, place)
}

// Where values have to close up.
#[inline(never)]
fn take_between<T>(queue: &mut VecDeque<T>, place: usize) -> T
    requires { place < length queue.old.items }
    ensures value { (d : T) → result ≡ slice_index_or queue.old.items place d }
    ensures items { queue.new.items ≡ remove queue.old.items place }
    ensures capacity { deque_capacity queue.new ≡ deque_capacity queue.old }
{
    queue.remove(place).unwrap()
}
