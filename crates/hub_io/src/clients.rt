//! The places of a hub's clients, the names that they have in turn, and their counts of faults.
ghost use Rattle.std.specs.Prelude.{◌≡◌, ◌+◌, ◌<◌, ◌≤◌, ◌^◌, false, Some, IsNone, IsTrue, ◌↔◌, IfOk, IfSome};
ghost use Rattle.kit_io.specs.Causes.{Rose};
ghost use Rattle.hub_io.specs.Clients.{place_in_table, fault_of, is_there, no_faults, nobody, TellsOf};
ghost use Rattle.hub_io.specs.Hub.{GoesAlone, NoneFell};
ghost use Rattle.hub_io.specs.declared.hub.HubEvent.TheVariants.{Joined};

use kit_bytes::ConnId;
use kit_io::Failed;
use std::alloc::{AllocError, Global};
use std::marker::Model;

/// How many clients may be there at one time.
pub const PLACES: usize = 128;

/// The place that a name has for ever. The names of a place are 128 apart.
pub fn place_of(name: ConnId) -> usize
    ensures value { result ≡ place_in_table name }
    ensures within { result < PLACES }
{
    (name.saturating_sub(1) % 128) as usize
}

/// The first name after `last` that has this place.
pub fn name_after(last: u64, place: usize) -> Option<u64>
    requires { place < PLACES }
    ensures later { IfSome result (λ name. last < name) }
    ensures first { IfSome result (λ name. name ≤ last + PLACES) }
    ensures has_place { IfSome result (λ name. place_in_table name ≡ place) }
    ensures none { IsNone result → 2 ^ 64 ≤ last + PLACES }
{
    let next = last.checked_add(1)?;
    let ahead = (place + PLACES - place_of(next)) % PLACES;
    next.checked_add(ahead as u64)
}

/// The names of the clients that are there, and the greatest that was told. Of names that are 128
/// apart only the one that came last is there.
#[derive(Drop)]
pub struct Names {
    greatest: u64,
    by_place: Vec<Option<u64>>,
}

impl Model for Names {
    ghost use Rattle.std.specs.Prelude.{◌≡◌, vec_len};
    ghost use Rattle.hub_io.specs.Clients.{Clients};

    ghost Value = { Clients };

    ghost view = { λ names. record { greatest = names.greatest; by_place = names.by_place.items } };

    ghost invariant = { λ names. vec_len names.by_place ≡ 128 };
}

impl Names {
    /// Nobody is there, and no name was told. This takes the memory of all the places.
    pub fn none(alloc: Global) -> Result<Self, AllocError>
        ensures { IfOk result (λ names. names ≡ nobody) }
    {
        Ok(Names {
            greatest: 0,
            by_place: Vec::from_elem(alloc, None, PLACES)?,
        })
    }

    /// Whether the client of this name is there.
    pub fn has(&self, name: ConnId) -> bool
        ensures { result ≡ is_there self.now name }
    {
        match self.by_place[place_of(name)] {
            Some(client) => client == name,
            None => false,
        }
    }

    /// Whether no name so great was told.
    pub fn is_new(&self, name: ConnId) -> bool
        ensures { IsTrue result ↔ (self.now.greatest < name) }
    {
        self.greatest < name
    }

    /// The first new name that has this place.
    pub fn next(&self, place: usize) -> Option<u64>
        requires { place < PLACES }
        ensures { IfSome result (λ name. self.now.greatest < name) }
    {
        name_after(self.greatest, place)
    }

    /// A client of a new name comes.
    pub fn join(&mut self, name: ConnId)
        requires { self.old.greatest < name }
        ensures { TellsOf (Some (Joined name)) self.old self.new }
    {
        self.by_place[place_of(name)] = Some(name);
        self.greatest = name;
    }

    /// A client goes, where it is there.
    pub fn leave(&mut self, name: ConnId)
        ensures clients { GoesAlone name (is_there self.old) (is_there self.new) }
        ensures greatest { self.new.greatest ≡ self.old.greatest }
    {
        if self.has(name) {
            self.by_place[place_of(name)] = None;
        }
    }
}

/// How many sends to each client have failed, by the place of its name. At its type's end a count
/// stands still.
#[derive(Drop)]
pub struct ConnFaults {
    counts: Vec<u64>,
}

impl Model for ConnFaults {
    ghost use Rattle.std.specs.Prelude.{◌≡◌, ℕ, List, vec_len};

    ghost Value = { List ℕ };

    ghost view = { λ faults. faults.counts.items };

    ghost invariant = { λ faults. vec_len faults.counts ≡ 128 };
}

impl ConnFaults {
    /// No send has failed. This takes the memory of all the counts.
    pub fn none(alloc: Global) -> Result<Self, AllocError>
        ensures { IfOk result (λ faults. faults ≡ no_faults) }
    {
        Ok(ConnFaults {
            counts: Vec::from_elem(alloc, 0, PLACES)?,
        })
    }

    /// Counts one more failure.
    pub fn fail(&mut self, conn: ConnId) -> Failed
        ensures conns { NoneFell (fault_of self.old) (fault_of self.new) }
        ensures rose { Rose (fault_of self.old conn) (fault_of self.new conn) }
    {
        let count = &mut self.counts[place_of(conn)];
        *count = count.saturating_add(1);
        Failed
    }
}
