ghost use Rattle.std.specs.Prelude.{◌≡◌, ◌<◌, ◌≤◌, ◌==◌, not, true, false, List, [], ◌∷◌, ◌++◌, take, drop, filter, find, length, option_map, position, vec_len, vec_capacity, IfOk, IfErr, IfSome};
ghost use Rattle.std.specs.List.{list_any, AllByRecursion};
ghost use Rattle.proxy_history.specs.ClientIds.{Grant, is_of, holder_in, holds_some};
ghost use Rattle.holders.specs.Grants.{AreInOrder, AreBytes, IsFoundAt, IsPlaceOf, is_of_service, is_of_both, granted};
ghost use Rattle.holders.specs.Rows.{all_granted, id_of, is_old};

use crate::row::Row;
use std::alloc::{AllocError, Global};
use std::marker::Model;

// Of 256 services with 256 client ids each.
const ID_LIMIT: usize = 65_536;

/// A number for each of some client ids.
///
/// The ids stand in order, so that one is found by a binary search.
#[derive(Drop)]
pub struct ById {
    rows: Vec<Row>,
}

impl Model for ById {
    ghost use Rattle.std.specs.Prelude.{◌≤◌, List, vec_capacity};
    ghost use Rattle.proxy_history.specs.ClientIds.{Grant};
    ghost use Rattle.holders.specs.Grants.{AreInOrder, AreBytes};

    ghost Value = { List Grant };

    ghost view = { λ ids. ids.rows.items };

    ghost invariant = { λ ids. record {
      ordered : AreInOrder ids.rows.items;
      bytes : AreBytes ids.rows.items;
      room : 65536 ≤ vec_capacity ids.rows;
    } };
}

impl ById {
    /// No id has a number. This takes all the memory that it will ever need.
    pub fn open(alloc: Global) -> Result<Self, AllocError>
        ensures { IfOk result (λ ids. ids ≡ []) }
    {
        Ok(ById {
            rows: Vec::with_capacity(alloc, ID_LIMIT)?,
        })
    }

    /// The number of the id.
    pub fn number(&self, service: u8, cid: u8) -> Option<u64>
        ensures number { result ≡ holder_in service cid self.now }
        ensures ordered { AreInOrder self.now }
    {
        match find(&self.rows, service, cid) {
            Ok(index) => {
                let row = &self.rows[index];
                Some(row.number())
            }
            Err(_) => None,
        }
    }

    /// The id has this number from here on.
    pub fn set(&mut self, number: u64, service: u8, cid: u8)
        ensures { self.new ≡ granted number service cid self.old }
    {
        let row = Row::new(number, service, cid);
        match find(&self.rows, service, cid) {
            Ok(index) => self.rows[index] = row,
            Err(place) => put(&mut self.rows, place, row),
        }
    }

    /// Each id that has the one number here has the other number there.
    pub fn hand_over(&self, number: u64, other: u64, to: &mut ById)
        ensures { to.new ≡ all_granted other (filter (λ g. number == g.conn) self.now) to.old }
    {
        for row in &self.rows {
            if number == row.number() {
                to.set(other, row.service(), row.cid());
            }
        }
    }

    /// The id has no number. Says whether it had one.
    ///
    /// Where no id has a number, it answers at once.
    pub fn forget(&mut self, service: u8, cid: u8) -> bool
        ensures ids { self.new ≡ filter (λ g. not (is_of service cid g)) self.old }
        ensures had { result ≡ false → self.new ≡ self.old }
    {
        if self.rows.is_empty() {
            return false;
        }
        match find(&self.rows, service, cid) {
            Ok(index) => {
                self.rows.remove(index);
                true
            }
            Err(_) => false,
        }
    }

    /// The id has no number, where it had this one.
    pub fn forget_both(&mut self, number: u64, service: u8, cid: u8)
        ensures { self.new ≡ filter (λ g. not (is_of_both number service cid g)) self.old }
    {
        self.rows.retain(|row| !(row.is_of(service, cid) & (number == row.number())));
    }

    /// No id has this number.
    pub fn forget_number(&mut self, number: u64)
        ensures { self.new ≡ filter (λ g. not (number == g.conn)) self.old }
    {
        self.rows.retain(|row| number != row.number());
    }

    /// No id has a number.
    pub fn clear(&mut self)
        ensures { self.new ≡ [] }
    {
        self.rows.clear();
    }

    /// Whether some id of the service has this number.
    pub fn has_some(&self, number: u64, service: u8) -> bool
        ensures { result ≡ holds_some number service self.now }
    {
        some_is_of(&self.rows, number, service)
    }

    /// The first id whose number is a time that is so long ago.
    pub fn first_old(&self, time: u64, after: u64) -> Option<(u8, u8)>
        ensures first { result ≡ option_map id_of (find (is_old after time) self.now) }
        ensures ordered { AreInOrder self.now }
    {
        let index = old_at(&self.rows, time, after)?;
        let row = &self.rows[index];
        Some((row.service(), row.cid()))
    }

    /// A number that is at most each of these.
    pub fn least(&self) -> u64
        ensures { AllByRecursion (λ g. result ≤ g.conn) self.now }
    {
        least(&self.rows)
    }
}

fn least(rows: &[Row]) -> u64
    ensures { AllByRecursion (λ g. result ≤ g.conn) rows.now }
{
    let mut least = u64::MAX;
    for row in rows {
        least = row.number().min(least);
    }
    least
}

// Where the first row stands whose number is a time that is so long ago.
fn old_at(rows: &[Row], time: u64, after: u64) -> Option<usize>
    ensures place { result ≡ position (is_old after time) rows.now }
    ensures within { IfSome result (λ place. place < length rows.now) }
{
    rows.iter().position(|row| row.is_old(time, after))
}

// Puts a row at its place in a list that has the room for it, which takes no memory.
fn put(rows: &mut Vec<Row>, place: usize, row: Row)
    requires place { place ≤ vec_len rows.old }
    requires room { vec_len rows.old < vec_capacity rows.old }
    ensures items { rows.new.items ≡ take place rows.old.items ++ row ∷ drop place rows.old.items }
    ensures capacity { vec_capacity rows.old ≤ vec_capacity rows.new }
{
    let _ = rows.insert(place, row);
}

fn some_is_of(rows: &[Row], number: u64, service: u8) -> bool
    ensures { result ≡ list_any (is_of_service number service) rows.now }
{
    rows.iter().any(|row| row.is_of_service(number, service))
}

// Where the id stands, or else where it would stand.
fn find(rows: &[Row], service: u8, cid: u8) -> Result<usize, usize>
    requires { AreInOrder rows.now }
    ensures found { IfOk result (IsFoundAt service cid rows.now) }
    ensures absent { IfErr result (IsPlaceOf service cid rows.now) }
{
    let place = rows.partition_point(|row| row.is_before(service, cid));
    if place == rows.len() {
        return Err(place);
    }
    let row = &rows[place];
    if row.is_of(service, cid) {
        Ok(place)
    } else {
        Err(place)
    }
}
