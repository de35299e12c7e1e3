ghost use Rattle.std.specs.Prelude.{◌≡◌, ◌≢◌, ◌+◌, ◌<◌, ◌≤◌, ◌==◌, ◌++◌, ◌∷◌, ℕ, [], None, Some, length, drop, position, vec_len, vec_capacity, IfOk, IfSome};
ghost use Rattle.std.specs.List.{AllByRecursion, remove};
ghost use Rattle.many_history.specs.Many.{Undecided, place_of};
ghost use Rattle.many_history.specs.Many.{Seat as ManySeat};
ghost use Rattle.many_seats.specs.Seats.{IsSeat, AreRising, chosen_in, chosen_by, said_in, first_conn, joins, moves, next_name, chooses_at};

use crate::chosen::Chosen;
use crate::gone::Gone;
use crate::said::Said;
use crate::seat::Seat;
use kit_bytes::ConnId;
use std::alloc::{AllocError, Global};
use std::marker::Model;

/// How many connections are there at most.
const LIMIT: usize = 64;

/// The connections of a proxy of several devices, in order of joining, where they are, and those that
/// were dropped.
///
/// All memory that they will ever need is taken at the opening.
#[derive(Drop)]
pub struct Seats {
    present: Vec<Seat>,
    dropped: Vec<Gone>,
    // for what those say that join
    free: Vec<Said>,
    // the greatest name at each device so far
    names: Vec<ConnId>,
    // the greatest name of a connection so far
    greatest: u64,
}

impl Model for Seats {
    ghost use Rattle.std.specs.Prelude.{◌≡◌, ◌+◌, ◌<◌, ◌≤◌, ◌^◌, vec_len, vec_capacity};
    ghost use Rattle.many_seats.specs.Seats.{Seating, HaveNames, AreInOrder};

    ghost Value = { Seating };

    ghost view = { λ s. record { seats = s.present.items; dropped = s.dropped.items; names = s.names.items; greatest = s.greatest } };

    ghost invariant = { λ s. record {
      count : vec_len s.present + vec_len s.free ≡ 64;
      few : vec_len s.present + vec_len s.dropped ≤ 65;
      present_room : 64 ≤ vec_capacity s.present;
      dropped_room : 65 ≤ vec_capacity s.dropped;
      free_room : 64 ≤ vec_capacity s.free;
      names : HaveNames s.names.items s.present.items s.greatest;
      order : AreInOrder s.present.items s.greatest;
      fits : s.greatest < 2 ^ 64;
    } };
}

impl Seats {
    /// Nobody is there yet, and there are so many devices.
    pub fn open(alloc: Global, devices: usize) -> Result<Self, AllocError>
        ensures nobody { IfOk result (λ s. (s.seats ≡ []) × (s.dropped ≡ []) × (s.greatest ≡ 0)) }
        ensures names { IfOk result (λ s. AllByRecursion (λ name. name ≡ 0) s.names) }
        ensures count { IfOk result (λ s. length s.names ≡ devices) }
    {
        Ok(Seats {
            present: Vec::with_capacity(alloc, LIMIT)?,
            dropped: Vec::with_capacity(alloc, LIMIT + 1)?,
            free: open_all(alloc)?,
            names: zeros(alloc, devices)?,
            greatest: 0,
        })
    }

    /// Those that were dropped have been hung up.
    pub fn hang_up(&mut self)
        ensures { self.new ≡ record self.old { dropped = [] } }
    {
        self.dropped.clear();
    }

    /// A client connected: it is let in behind the others, or dropped where as many as may be are
    /// there.
    pub fn join(&mut self, conn: ConnId)
        requires newer { self.old.greatest < conn }
        requires hung_up { self.old.dropped ≡ [] }
        ensures { self.new ≡ joins conn self.old }
    {
        self.greatest = conn;
        match self.free.pop() {
            Some(said) => self.present.push_reserved(Seat::begin(conn, said)),
            None => self.dropped.push_reserved(Gone::new(conn, None)),
        }
    }

    /// Where the connection of this name stands in the order of joining.
    pub fn find(&self, conn: ConnId) -> Option<usize>
        ensures place { result ≡ position (λ seat. seat.conn == conn) self.now.seats }
        ensures within { IfSome result (λ place. place < length self.now.seats) }
    {
        index_of(&self.present, conn)
    }

    /// How many are there.
    pub fn present(&self) -> usize
        ensures { result ≡ length self.now.seats }
    {
        self.present.len()
    }

    /// The name of the connection of this place in the order of joining.
    pub fn conn_at(&self, place: usize) -> ConnId
        requires { place < length self.now.seats }
        ensures { (seat : ManySeat) → IsSeat seat self.now.seats place → result ≡ seat.conn }
    {
        let seat = &self.present[place];
        seat.conn()
    }

    /// What the connection of this place chose; none while it hasn't.
    pub fn chosen_at(&self, place: usize) -> Option<Chosen>
        requires { place < length self.now.seats }
        ensures { (seat : ManySeat) → IsSeat seat self.now.seats place → result ≡ chosen_in seat.place }
    {
        let seat = &self.present[place];
        seat.chosen()
    }

    /// What the connection of this place said so far, where it hasn't chosen.
    pub fn said_at(&self, place: usize) -> &[u8]
        requires { place < length self.now.seats }
        ensures { (seat : ManySeat) → IsSeat seat self.now.seats place → chosen_in seat.place ≡ None → result.now ≡ said_in seat.place }
    {
        let seat = &self.present[place];
        seat.said()
    }

    /// What the connection of this name chose that is there, or was dropped and wasn't asked for yet.
    pub fn chosen(&self, conn: ConnId) -> Option<Chosen>
        ensures { result ≡ chosen_by (place_of conn (self.now.seats ++ self.now.dropped)) }
    {
        match self.find(conn) {
            Some(place) => self.chosen_at(place),
            None => chosen_of(&self.dropped, conn),
        }
    }

    /// The connection of this place, which hasn't chosen, says more.
    pub fn say(&mut self, place: usize, piece: &[u8])
        requires within { place < length self.old.seats }
        requires undecided { (seat : ManySeat) → IsSeat seat self.old.seats place → chosen_in seat.place ≡ None }
        requires room { (seat : ManySeat) → IsSeat seat self.old.seats place → length (said_in seat.place) + length piece.now ≤ 81920 }
        ensures { (seat : ManySeat) → IsSeat seat self.old.seats place →
            self.new ≡ moves place seat.conn (Undecided (said_in seat.place ++ piece.now)) self.old }
    {
        let seat = &mut self.present[place];
        seat.say(piece);
    }

    /// The name of the next one at this device, where somebody hasn't chosen yet.
    pub fn next_name(&self, place: usize, device: usize) -> u64
        requires within { place < length self.now.seats }
        requires undecided { (seat : ManySeat) → IsSeat seat self.now.seats place → chosen_in seat.place ≡ None }
        requires device { device < length self.now.names }
        ensures { result ≡ next_name device self.now }
    {
        self.names[device] + 1
    }

    /// The connection of this place chooses this device, and has the next name there.
    pub fn choose(&mut self, place: usize, device: usize, name: ConnId)
        requires within { place < length self.old.seats }
        requires undecided { (seat : ManySeat) → IsSeat seat self.old.seats place → chosen_in seat.place ≡ None }
        requires device { device < length self.old.names }
        requires name { name ≡ next_name device self.old }
        ensures { (seat : ManySeat) → IsSeat seat self.old.seats place → self.new ≡ chooses_at place seat.conn device self.old }
    {
        self.names[device] = name;
        let seat = &mut self.present[place];
        seat.choose(device, name);
    }

    /// The connection of this place is gone.
    pub fn leave_at(&mut self, place: usize)
        requires { place < length self.old.seats }
        ensures { self.new ≡ record self.old { seats = remove self.old.seats place } }
    {
        let seat = self.present.remove(place);
        self.free.push_reserved(seat.into_said());
    }

    /// The connection of this place, which has chosen, is dropped.
    pub fn drop_at(&mut self, place: usize)
        requires within { place < length self.old.seats }
        requires chosen { (seat : ManySeat) → IsSeat seat self.old.seats place → chosen_in seat.place ≢ None }
        ensures { (seat : ManySeat) → IsSeat seat self.old.seats place →
            self.new ≡ record self.old { seats = remove self.old.seats place; dropped = self.old.dropped ++ seat ∷ [] } }
    {
        let seat = self.present.remove(place);
        self.dropped
            .push_reserved(Gone::new(seat.conn(), seat.chosen()));
        self.free.push_reserved(seat.into_said());
    }

    /// The next connection that was dropped, each once.
    pub fn next_dropped(&mut self) -> Option<ConnId>
        ensures first { result ≡ first_conn self.old.dropped }
        ensures asked { self.new ≡ record self.old { dropped = drop 1 self.old.dropped } }
    {
        if self.dropped.is_empty() {
            return None;
        }
        let gone = self.dropped.remove(0);
        Some(gone.conn())
    }
}

// The room for what each may say that joins.
fn open_all(alloc: Global) -> Result<Vec<Said>, AllocError>
    ensures count { IfOk result (λ all. vec_len all ≡ 64) }
    ensures capacity { IfOk result (λ all. 64 ≤ vec_capacity all) }
{
    let mut all = Vec::with_capacity(alloc, LIMIT)?;
    while all.len() < LIMIT {
        all.push_reserved(Said::open(alloc)?);
    }
    Ok(all)
}

// So many zeros.
fn zeros(alloc: Global, count: usize) -> Result<Vec<u64>, AllocError>
    ensures zeros { IfOk result (λ names. AllByRecursion (λ name. name ≡ 0) names.items) }
    ensures count { IfOk result (λ names. length names.items ≡ count) }
{
    let mut names = Vec::with_capacity(alloc, count)?;
    while names.len() < count {
        names.push_reserved(0);
    }
    Ok(names)
}

// Where the connection of this name stands among those that are there.
fn index_of(present: &[Seat], conn: ConnId) -> Option<usize>
    requires { AreRising present.now }
    ensures place { result ≡ position (λ seat. seat.conn == conn) present.now }
    ensures within { IfSome result (λ place. place < length present.now) }
{
    if let Some(place) = likely_index(present, conn) {
        return Some(place);
    }
    let place = present.partition_point(|seat| seat.conn() < conn);
    if place == present.len() {
        return None;
    }
    let seat = &present[place];
    if seat.conn() == conn {
        Some(place)
    } else {
        None
    }
}

// Where it stands if everybody is still there who joined from the first on to it.
fn likely_index(present: &[Seat], conn: ConnId) -> Option<usize>
    requires { AreRising present.now }
    ensures place { IfSome result (λ place. Some place ≡ position (λ seat. seat.conn == conn) present.now) }
    ensures within { IfSome result (λ place. place < length present.now) }
{
    let first = present.first()?;
    let place = conn.checked_sub(first.conn())? as usize;
    if place < present.len() {
        let seat = &present[place];
        if seat.conn() == conn {
            return Some(place);
        }
    }
    None
}

// What the connection of this name chose, where the list has it.
fn chosen_of(dropped: &[Gone], conn: ConnId) -> Option<Chosen>
    ensures { result ≡ chosen_by (place_of conn dropped.now) }
{
    match find_in(dropped, conn) {
        Some(place) => {
            let gone = &dropped[place];
            gone.chosen()
        }
        None => None,
    }
}

// Where the connection of this name stands in the list.
fn find_in(dropped: &[Gone], conn: ConnId) -> Option<usize>
    ensures place { result ≡ position (λ seat. seat.conn == conn) dropped.now }
    ensures within { IfSome result (λ place. place < length dropped.now) }
{
    dropped.iter().position(|gone| gone.conn() == conn)
}
