//! How many numbers each connection waits for, as far as that is known without a walk over the rows.
ghost use Rattle.std.specs.Prelude.{◌≡◌, ◌-◌, ◌<◌, if◌then◌else◌, Some, option_map, IfOk};
ghost use Rattle.number_space.specs.Counts.{place_of, known, NobodyWaits, OthersStay};

use kit_bytes::ConnId;
use std::alloc::{AllocError, Global};
use std::marker::Model;

/// How many counts are kept.
const PLACES: usize = 128;

/// A connection, and how many numbers it waits for.
#[derive(Clone, Copy)]
pub(crate) struct Count {
    pub(crate) conn: ConnId,
    pub(crate) waits: u32,
}

const NOBODY: Count = Count { conn: 0, waits: 0 };

/// Counts of connections, by the places of their names. Names that are 128 apart share a place: it has
/// the count that was set last.
#[derive(Drop)]
pub(crate) struct Counts {
    by_place: Vec<Count>,
}

impl Model for Counts {
    ghost use Rattle.std.specs.Prelude.{◌≡◌, List, vec_len};
    ghost use Rattle.number_space.specs.declared.counts.Count.{Count};

    ghost Value = { List Count };

    ghost view = { λ counts. counts.by_place.items };

    ghost invariant = { λ counts. vec_len counts.by_place ≡ 128 };
}

impl Counts {
    /// Nobody waits. This takes the memory of all the counts.
    pub(crate) fn none(alloc: Global) -> Result<Self, AllocError>
        ensures { IfOk result NobodyWaits }
    {
        Ok(Counts {
            by_place: Vec::from_elem(alloc, NOBODY, PLACES)?,
        })
    }

    /// How many numbers this connection waits for, if its place has its count.
    pub(crate) fn get(&self, conn: ConnId) -> Option<u32>
        ensures { result ≡ known self.now conn }
    {
        let count = self.by_place[place_of(conn)];
        if count.conn == conn {
            Some(count.waits)
        } else {
            None
        }
    }

    /// This connection waits for so many numbers.
    pub(crate) fn set(&mut self, conn: ConnId, waits: u32)
        ensures here { known self.new conn ≡ Some waits }
        ensures others { OthersStay conn self.old self.new }
    {
        self.by_place[place_of(conn)] = Count { conn, waits };
    }

    /// This connection waits for one number fewer, if it waited for that one.
    pub(crate) fn ended(&mut self, conn: ConnId, pending: bool)
        ensures here { known self.new conn ≡ option_map (λ waits. waits - (if pending then 1 else 0)) (known self.old conn) }
        ensures others { OthersStay conn self.old self.new }
    {
        if let Some(waits) = self.get(conn) {
            self.set(conn, waits.saturating_sub(u32::from(pending)));
        }
    }

    /// Nobody waits any more.
    pub(crate) fn clear(&mut self)
        ensures { NobodyWaits self.new }
    {
        self.by_place.fill(NOBODY);
    }
}

fn place_of(conn: ConnId) -> usize
    ensures value { result ≡ place_of conn }
    ensures within { result < PLACES }
{
    (conn % 128) as usize
}
