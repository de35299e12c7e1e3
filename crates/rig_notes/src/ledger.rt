ghost use Rattle.std.specs.Prelude.{◌≡◌, ◌+◌, ◌∷◌, ◌++◌, [], OnOk, IfOk};
ghost use Rattle.rig_trace.specs.Rows.{empty, first_with, has_answered, has_passed, has_said, is_same_key, more_said, number_at, one_forwarded, one_refused, row_for, said_by};

use crate::counting::{expired, next, one_answered, one_forwarded, one_refused};
use crate::{Reading, SHORTEST};
use kit_bytes::ConnId;
use rig_trace::{Counts, Key, Row};
use std::alloc::{AllocError, Global};
use std::marker::{Model, PhantomData};

/// The names of clients are below this.
const NAMES: usize = 65;

/// The requests in use of a proxy, by what its clients and the modem say and what waits for the modem.
///
/// It fails where memory runs out, a name or a count is too large, or a message has no whole head, and
/// is then only to be dropped.
#[derive(Drop)]
pub(crate) struct Ledger<R: Reading> {
    // in order of asking
    rows: Vec<Row>,
    // how many requests the modem was asked
    asked: u64,
    // in milliseconds
    time: u64,
    // how many messages each client said
    said: [u64; NAMES],
    counts: Counts,
    reading: PhantomData<R>,
}

impl<R: Reading> Model for Ledger<R> {
    ghost use Rattle.rig_trace.specs.Rows.{Ledger};

    ghost Value = { Ledger };

    ghost view = { λ s. record { rows = s.rows.items; asked = s.asked; time = s.time; said = s.said; counts = s.counts } };
}

impl<R: Reading> Ledger<R> {
    /// One that was told nothing.
    pub fn new(alloc: Global) -> Self
        ensures { result ≡ empty }
    {
        Ledger {
            rows: Vec::new(alloc),
            asked: 0,
            time: 0,
            said: [0; NAMES],
            counts: Counts {
                forwarded: 0,
                answered: 0,
                expired: 0,
                late: 0,
                refused: 0,
            },
            reading: PhantomData,
        }
    }

    /// What became of the clients' requests.
    pub fn counts(&self) -> Counts
        ensures { result ≡ self.now.counts }
    {
        self.counts
    }

    /// The number of the request that the client made by its message from this place.
    pub fn number_at(&self, conn: ConnId, place: u64) -> Option<u32>
        ensures { result ≡ number_at conn place self.now.rows }
    {
        let mut rest: &[Row] = &self.rows;
        while let Some((row, more)) = rest.split_first() {
            if row.conn == conn && row.place == place {
                return Some(row.key.number);
            }
            rest = more;
        }
        None
    }

    /// A client said a message, and then these bytes were new in the modem's queue. Gives the
    /// message's place among the client's, counted from 1.
    pub fn say(&mut self, conn: ConnId, message: &[u8], asked: &[u8]) -> Result<u64, AllocError>
        ensures place { IfOk result (λ place. place ≡ said_by conn self.old + 1) }
        ensures said { OnOk result (self.new ≡ has_said R.reading conn message.now asked.now self.old) }
    {
        let place = self.count(conn)?;
        if asked.is_empty() {
            self.refuse(message)?;
            return Ok(place);
        }
        self.ask(conn, place, asked)?;
        Ok(place)
    }

    /// The modem gave an answer: the request that it answers is in use no more.
    pub fn answer(&mut self, message: &[u8]) -> Result<Option<Row>, AllocError>
        ensures found { IfOk result (λ found. found ≡ first_with (R.reading.of_answer message.now) self.old.rows) }
        ensures answered { OnOk result (self.new ≡ has_answered (first_with (R.reading.of_answer message.now) self.old.rows) self.old) }
    {
        if message.len() < SHORTEST {
            return Err(AllocError);
        }
        let key = R::of_answer(message);
        let found = first_with(key, &self.rows);
        if let Some(row) = found {
            self.counts = one_answered(&row, self.time, self.counts)?;
            self.rows.retain(|other| row.serial != other.serial);
        }
        Ok(found)
    }

    /// The clock shows a time.
    pub fn pass(&mut self, time: u64) -> Result<(), AllocError>
        ensures { OnOk result (self.new ≡ has_passed time self.old) }
    {
        let after = time.max(self.time);
        self.counts.expired = expired(&self.rows, self.time, after, self.counts.expired)?;
        self.time = after;
        Ok(())
    }

    // One more message of a client, and its place.
    fn count(&mut self, conn: ConnId) -> Result<u64, AllocError>
        ensures place { IfOk result (λ place. place ≡ said_by conn self.old + 1) }
        ensures counted { OnOk result (self.new ≡ record self.old { said = more_said conn self.old }) }
    {
        if conn >= NAMES as u64 {
            return Err(AllocError);
        }
        let place = next(self.said[conn as usize])?;
        self.said[conn as usize] = place;
        Ok(place)
    }

    // A client's message was refused, unless it opens the device.
    fn refuse(&mut self, message: &[u8]) -> Result<(), AllocError>
        ensures { OnOk result (self.new ≡ record self.old { counts = one_refused (R.reading.opens message.now) self.old.counts }) }
    {
        if message.len() < SHORTEST {
            return Err(AllocError);
        }
        self.counts = one_refused(R::opens(message), self.counts)?;
        Ok(())
    }

    // A client's message from this place made the proxy ask these bytes.
    fn ask(&mut self, conn: ConnId, place: u64, asked: &[u8]) -> Result<(), AllocError>
        ensures { OnOk result (self.new ≡ record self.old {
          rows = self.old.rows ++ record (row_for R.reading conn asked.now self.old) { place = place } ∷ [];
          asked = self.old.asked + 1;
          counts = one_forwarded (R.reading.is_own asked.now) self.old.counts;
        }) }
    {
        if asked.len() < SHORTEST {
            return Err(AllocError);
        }
        let own = R::is_own(asked);
        let serial = next(self.asked)?;
        self.rows.push(Row {
            serial,
            conn,
            place,
            key: R::of_request(asked),
            own,
            deadline: self.time.saturating_add(R::time_limit()),
        })?;
        self.asked = serial;
        self.counts = one_forwarded(own, self.counts)?;
        Ok(())
    }
}

// The first of them with this key.
fn first_with(key: Key, rows: &[Row]) -> Option<Row>
    ensures { result ≡ first_with key rows.now }
{
    let mut rest = rows;
    while let Some((row, more)) = rest.split_first() {
        if is_same_key(&key, &row.key) {
            return Some(*row);
        }
        rest = more;
    }
    None
}

fn is_same_key(key: &Key, other: &Key) -> bool
    ensures { result ≡ is_same_key key.now other.now }
{
    key.kind == other.kind && key.cid == other.cid && key.number == other.number
}
