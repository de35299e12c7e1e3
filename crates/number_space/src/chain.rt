//! Values in the order in which they came, each under a key. They stand in a slab, and each is linked
//! to its neighbours, so that one is added at the end or taken out anywhere without a walk.
ghost use Rattle.std.specs.Prelude.{◌≡◌, ℕ, ◌+◌, ◌<◌, ◌≤◌, List, [], ◌∷◌, ◌++◌, length, drop, set, slice_index_or, Some, None, is_none, option_map, IfOk, ◌≢◌, if◌then◌else◌};
ghost use Rattle.std.specs.List.{remove};
ghost use Rattle.slab.specs.Slab.{get, slab_len};
ghost use Rattle.number_space.specs.Chain.{KeyAt, HasKey, first_key, with_value, after_at, before_at};

use slab::Slab;
use std::alloc::{AllocError, Global};
use std::marker::Model;

/// A value, and the keys of those that came right before and after it.
#[derive(Clone, Copy)]
pub(crate) struct Link<V> {
    pub(crate) value: V,
    pub(crate) before: Option<usize>,
    pub(crate) after: Option<usize>,
}

/// Values in the order in which they came. A key is given again once its value was taken out.
#[derive(Drop)]
pub(crate) struct Chain<V> {
    links: Slab<Link<V>>,
    first: Option<usize>,
    last: Option<usize>,
}

impl<V> Model for Chain<V> {
    ghost use Rattle.slab.specs.Slab.{get, slab_len};
    ghost use Rattle.number_space.specs.Chain.{Entries, met_from, AreLinksOf};

    ghost Value = { Entries V };

    ghost view = { λ c. record { entries = met_from (get c.links) (slab_len c.links) c.first; capacity = c.links.capacity } };

    ghost invariant = { λ c. AreLinksOf (get c.links) (slab_len c.links) c.first c.last (met_from (get c.links) (slab_len c.links) c.first) };
}

impl<V: Copy> Chain<V> {
    /// A chain of nothing, with room for so many.
    pub(crate) fn open(alloc: Global, limit: usize) -> Result<Self, AllocError>
        ensures entries { IfOk result (λ chain. chain.entries ≡ []) }
        ensures room { IfOk result (λ chain. limit ≤ chain.capacity) }
    {
        Ok(Chain {
            links: Slab::with_capacity(alloc, limit)?,
            first: None,
            last: None,
        })
    }

    pub(crate) fn len(&self) -> usize
        ensures { result ≡ length self.now.entries }
    {
        self.links.len()
    }

    /// The key of the value that came first.
    pub(crate) fn first(&self) -> Option<usize>
        ensures { result ≡ first_key None self.now.entries }
    {
        self.first
    }

    /// The value of this key, and the key of the one that came after it.
    pub(crate) fn at(&self, key: usize) -> (V, Option<usize>)
        requires { HasKey key self.now.entries }
        ensures value { (place : ℕ) (d : ℕ × V) → KeyAt key self.now.entries place → result.0 ≡ (slice_index_or self.now.entries place d).1 }
        ensures after { (place : ℕ) → KeyAt key self.now.entries place → result.1 ≡ first_key None (drop (place + 1) self.now.entries) }
    {
        let link = &self.links[key];
        (link.value, link.after)
    }

    /// Adds a value at the end, under a key that nothing has. This takes no memory.
    pub(crate) fn push(&mut self, value: V) -> usize
        requires { length self.old.entries < self.old.capacity }
        ensures entries { self.new.entries ≡ self.old.entries ++ (result, value) ∷ [] }
        ensures capacity { self.new.capacity ≡ self.old.capacity }
    {
        let key = self.links.insert_reserved(Link {
            value,
            before: self.last,
            after: None,
        });
        self.first = set_after(&mut self.links, self.last, Some(key), self.first);
        self.last = Some(key);
        key
    }

    /// Puts a value in the place of another.
    pub(crate) fn set(&mut self, key: usize, value: V)
        requires { HasKey key self.old.entries }
        ensures entries { (place : ℕ) → KeyAt key self.old.entries place → self.new.entries ≡ set self.old.entries place (key, value) }
        ensures capacity { self.new.capacity ≡ self.old.capacity }
    {
        set_value(&mut self.links, key, value);
    }

    /// Takes a value out.
    pub(crate) fn remove(&mut self, key: usize) -> V
        requires { HasKey key self.old.entries }
        ensures value { (place : ℕ) (d : ℕ × V) → KeyAt key self.old.entries place → result ≡ (slice_index_or self.old.entries place d).1 }
        ensures entries { (place : ℕ) → KeyAt key self.old.entries place → self.new.entries ≡ remove self.old.entries place }
        ensures capacity { self.new.capacity ≡ self.old.capacity }
    {
        let link = self.links.remove(key);
        self.first = set_after(&mut self.links, link.before, link.after, self.first);
        self.last = set_before(&mut self.links, link.after, link.before, self.last);
        link.value
    }

    /// Takes all values out.
    pub(crate) fn clear(&mut self)
        ensures entries { self.new.entries ≡ [] }
        ensures capacity { self.new.capacity ≡ self.old.capacity }
    {
        self.links.clear();
        self.first = None;
        self.last = None;
    }
}

fn set_value<V: Copy>(links: &mut Slab<Link<V>>, key: usize, value: V)
    ensures here { get links.new key ≡ option_map (with_value value) (get links.old key) }
    ensures others { (other : ℕ) → other ≢ key → get links.new other ≡ get links.old other }
    ensures len { slab_len links.new ≡ slab_len links.old }
    ensures capacity { links.new.capacity ≡ links.old.capacity }
{
    if let Some(link) = links.get_mut(key) {
        link.value = value;
    }
}

// Behind this one comes that one, which is the first where there is none to stand behind. Gives the first.
fn set_after<V: Copy>(
    links: &mut Slab<Link<V>>,
    at: Option<usize>,
    after: Option<usize>,
    first: Option<usize>,
) -> Option<usize>
    ensures first { result ≡ (if is_none at then after else first) }
    ensures links { (key : ℕ) → get links.new key ≡ after_at at after (get links.old) key }
    ensures len { slab_len links.new ≡ slab_len links.old }
    ensures capacity { links.new.capacity ≡ links.old.capacity }
{
    let Some(key) = at else {
        return after;
    };
    if let Some(link) = links.get_mut(key) {
        link.after = after;
    }
    first
}

// Before this one comes that one, which is the last where there is none to stand before. Gives the last.
fn set_before<V: Copy>(
    links: &mut Slab<Link<V>>,
    at: Option<usize>,
    before: Option<usize>,
    last: Option<usize>,
) -> Option<usize>
    ensures last { result ≡ (if is_none at then before else last) }
    ensures links { (key : ℕ) → get links.new key ≡ before_at at before (get links.old) key }
    ensures len { slab_len links.new ≡ slab_len links.old }
    ensures capacity { links.new.capacity ≡ links.old.capacity }
{
    let Some(key) = at else {
        return before;
    };
    if let Some(link) = links.get_mut(key) {
        link.before = before;
    }
    last
}
