ghost use Rattle.std.specs.Prelude.{◌≡◌, ◌↔◌, ◌≤◌, ◌&&◌, ◌==◌, ℕ, List, ◌∷◌, length, option_map, Contains, IfOk, IfSome, IsNone};
ghost use Rattle.std.specs.List.{list_any};
ghost use Rattle.proxy_history.specs.Requests.{following};
ghost use Rattle.proxy_history.specs.Laws.{IsFirstFree};
ghost use Rattle.number_space.specs.Table.{pending_of, opened, numbers, row_of, next_number, gives, found, answers, first_due, expires, orphans, resets, IsSound, IsRisingListOf};
ghost use Rattle.number_space.specs.Calls.{Call, Give, Answer, Expire, Orphan, Reset, StandsFor};
ghost use Rattle.number_space.specs.Laws.{IsGivenAndNotFreed};

use crate::by_number::Index;
use crate::chain::Chain;
use crate::counts::Counts;
use crate::numbers::Numbers;
use crate::rows;
use kit_bytes::ConnId;
use std::alloc::{AllocError, Global};
use std::marker::Model;

/// A number in use.
#[derive(Clone, Copy, PartialEq, Eq)]
pub struct Row<T> {
    pub number: u32,
    /// The connection that it was given to.
    pub conn: ConnId,
    /// What that connection is to get back.
    pub note: T,
    /// The time from which on the number expires, in milliseconds.
    pub deadline: u64,
    /// Whether somebody still waits for the answer.
    pub pending: bool,
}

/// What an answer with some number finds.
#[derive(Clone, Copy, PartialEq, Eq)]
pub enum Found<T> {
    /// The connection and the note that wait for it.
    Pending(u64, T),
    /// The number is in use, and nobody waits any more.
    Late,
    /// The number isn't in use.
    Stray,
}

/// Numbers from 1 to a top, of which no more than a limit are in use at a time.
///
/// A number that was given is in use until its answer or a reset. One that expired, or whose
/// connection left, stays in use, so that its late answer finds nobody else.
#[derive(Drop)]
pub struct Space<T> {
    // in order of giving
    rows: Chain<Row<T>>,
    // in rising order
    index: Index,
    last: u32,
    limit: u32,
    top: u32,
    // no pending number is due before this time
    earliest: u64,
    counts: Counts,
}

impl<T> Model for Space<T> {
    ghost use Rattle.std.specs.Prelude.{◌≤◌};
    ghost use Rattle.number_space.specs.Table.{Table, IsSound, NoneIsDueBefore};
    ghost use Rattle.number_space.specs.Chain.{values};
    ghost use Rattle.number_space.specs.Index.{IsIndexOf};
    ghost use Rattle.number_space.specs.Counts.{AreCounted};

    ghost Value = { Table T };

    ghost view = { λ s. record { rows = values s.rows.entries; last = s.last; limit = s.limit; top = s.top } };

    ghost invariant = { λ s. record {
      sound : IsSound (record { rows = values s.rows.entries; last = s.last; limit = s.limit; top = s.top });
      room : s.limit ≤ s.rows.capacity;
      index_room : s.limit ≤ s.index.capacity;
      indexed : IsIndexOf s.index.entries s.rows.entries;
      none_due : NoneIsDueBefore s.earliest (values s.rows.entries);
      counted : AreCounted s.counts (values s.rows.entries);
    } };
}

impl<T: Copy> Space<T> {
    /// A space that nothing was given from. This takes all the memory that it will ever need.
    pub fn open(alloc: Global, limit: u32, top: u32) -> Result<Self, AllocError>
        requires some { 1 ≤ limit }
        requires within { limit ≤ top }
        ensures { IfOk result (λ space. space ≡ opened limit top) }
    {
        Ok(Space {
            rows: Chain::open(alloc, limit as usize)?,
            index: Index::open(alloc, limit as usize)?,
            last: 0,
            limit,
            top,
            earliest: u64::MAX,
            counts: Counts::none(alloc)?,
        })
    }

    /// Gives the first number after the last one given, cyclic from 1 to the top, that isn't in
    /// use; none where as many as may be are in use.
    pub fn give(&mut self, conn: ConnId, note: T, deadline: u64) -> Option<u32>
        ensures number { result ≡ next_number self.old }
        ensures table { self.new ≡ gives conn note deadline self.old }
        ensures first_free { IfSome result (IsFirstFree self.old.top (following self.old.top self.old.last) (numbers self.old.rows)) }
        ensures full { IsNone result ↔ (self.old.limit ≤ length self.old.rows) }
        ensures sound { IsSound self.new }
        ensures stands { (limit top : ℕ) (calls : List (Call T)) → StandsFor limit top calls self.old → StandsFor limit top (Give conn note deadline ∷ calls) self.new }
    {
        if self.rows.len() >= self.limit as usize {
            return None;
        }
        let waits = self.pending(conn);
        let (number, place) = self.index.next_free(self.top, self.last);
        let key = self.rows.push(Row {
            number,
            conn,
            note,
            deadline,
            pending: true,
        });
        self.index.put(place, number, key);
        self.last = number;
        self.earliest = self.earliest.min(deadline);
        self.counts.set(conn, waits + 1);
        Some(number)
    }

    /// The connection, the note and whether somebody still waits, of a number in use.
    pub fn look(&self, number: u32) -> Option<(u64, T, bool)>
        ensures row { result ≡ option_map (λ r. (r.conn, r.note, r.pending)) (row_of number self.now.rows) }
        ensures sound { IsSound self.now }
    {
        let place = self.index.find(number)?;
        let (row, _) = self.rows.at(self.index.key_at(place));
        Some((row.conn, row.note, row.pending))
    }

    /// The numbers in use in rising order, each once.
    pub fn numbers(&self) -> &Numbers
        ensures rising { IsRisingListOf (Contains (numbers self.now.rows)) result.now.items }
        ensures stands { (limit top : ℕ) (calls : List (Call T)) → StandsFor limit top calls self.now → IsRisingListOf (λ number. IsGivenAndNotFreed limit top number calls) result.now.items }
    {
        self.index.numbers()
    }

    /// Whether this connection waits for an answer.
    pub fn is_awaited(&self, conn: ConnId) -> bool
        ensures { result ≡ list_any (λ r. r.pending && (r.conn == conn)) self.now.rows }
    {
        rows::some_await(&self.rows, conn)
    }

    /// How many numbers this connection waits for.
    pub fn pending(&self, conn: ConnId) -> u32
        ensures { result ≡ pending_of conn self.now }
    {
        match self.counts.get(conn) {
            Some(waits) => waits,
            None => self.count(conn),
        }
    }

    // How many they are, by a walk: nothing is kept of this connection.
    #[inline(never)]
    fn count(&self, conn: ConnId) -> u32
        ensures { result ≡ pending_of conn self.now }
    {
        // no more are in use than may be
        let most = self.limit as usize;
        rows::how_many_await(&self.rows, conn).min(most) as u32
    }

    /// Meets an answer with this number, and frees the number.
    pub fn answer(&mut self, number: u32) -> Found<T>
        ensures found { result ≡ found (row_of number self.old.rows) }
        ensures table { self.new ≡ answers number self.old }
        ensures stands { (limit top : ℕ) (calls : List (Call T)) → StandsFor limit top calls self.old → StandsFor limit top (Answer number ∷ calls) self.new }
    {
        let Some(place) = self.index.find(number) else {
            return Found::Stray;
        };
        let row = self.rows.remove(self.index.take(place));
        self.counts.ended(row.conn, row.pending);
        if row.pending {
            Found::Pending(row.conn, row.note)
        } else {
            Found::Late
        }
    }

    /// Takes the pending number that was given first among those whose deadline came: it stays in
    /// use, and nobody waits for it any more. None where no pending number is due.
    pub fn expire(&mut self, now: u64) -> Option<(u64, T)>
        ensures due { result ≡ option_map (λ r. (r.conn, r.note)) (first_due now self.old.rows) }
        ensures table { self.new ≡ expires now self.old }
        ensures stands { (limit top : ℕ) (calls : List (Call T)) → StandsFor limit top calls self.old → StandsFor limit top (Expire now ∷ calls) self.new }
    {
        if now < self.earliest {
            return None;
        }
        let Some(key) = rows::first_due(&self.rows, now) else {
            self.earliest = rows::earliest_deadline(&self.rows);
            return None;
        };
        let (mut row, _) = self.rows.at(key);
        self.counts.ended(row.conn, row.pending);
        row.pending = false;
        self.rows.set(key, row);
        Some((row.conn, row.note))
    }

    /// Keeps the numbers of this connection in use, and nobody waits for them any more.
    pub fn orphan(&mut self, conn: ConnId)
        ensures table { self.new ≡ orphans conn self.old }
        ensures stands { (limit top : ℕ) (calls : List (Call T)) → StandsFor limit top calls self.old → StandsFor limit top (Orphan conn ∷ calls) self.new }
    {
        rows::orphan(&mut self.rows, conn);
        self.counts.set(conn, 0);
    }

    /// Frees all numbers. The last one given is remembered.
    pub fn reset(&mut self)
        ensures table { self.new ≡ resets self.old }
        ensures stands { (limit top : ℕ) (calls : List (Call T)) → StandsFor limit top calls self.old → StandsFor limit top (Reset ∷ calls) self.new }
    {
        self.rows.clear();
        self.index.clear();
        self.earliest = u64::MAX;
        self.counts.clear();
    }
}
