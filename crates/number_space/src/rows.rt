//! Walks over the rows of a space, in order of giving.
ghost use Rattle.std.specs.Prelude.{Any, ◌≡◌, ◌+◌, ◌&&◌, ◌<◌, ◌==◌, if◌then◌else◌, None, map, position, IfSome, IsNone};
ghost use Rattle.std.specs.List.{list_any};
ghost use Rattle.number_space.specs.Chain.{values};
ghost use Rattle.number_space.specs.Index.{IsFirstDue, on_row};
ghost use Rattle.number_space.specs.Table.{waiting_of, settled_where, is_due, IsPendingUntil, NoneIsDueBefore};

use crate::chain::Chain;
use crate::space::Row;
use kit_bytes::ConnId;

fn is_due<T>(row: &Row<T>, now: u64) -> bool
    ensures { result ≡ is_due now row.now }
{
    row.pending && row.deadline <= now
}

fn is_awaited<T>(row: &Row<T>, conn: ConnId) -> bool
    ensures { result ≡ (row.now.pending && (row.now.conn == conn)) }
{
    row.pending && row.conn == conn
}

/// The key of the first pending row that is due.
pub fn first_due<T: Copy>(rows: &Chain<Row<T>>, now: u64) -> Option<usize>
    ensures due { IfSome result (IsFirstDue now rows.now.entries) }
    ensures none { IsNone result → position (is_due now) (values rows.now.entries) ≡ None }
{
    let mut at = rows.first();
    for _ in 0..rows.len() {
        let Some(key) = at else {
            return None;
        };
        let (row, after) = rows.at(key);
        if is_due(&row, now) {
            return Some(key);
        }
        at = after;
    }
    None
}

/// A time before which no pending row is due: the least of their deadlines.
pub fn earliest_deadline<T: Copy>(rows: &Chain<Row<T>>) -> u64
    ensures none_due { NoneIsDueBefore result (values rows.now.entries) }
    ensures least { result < u64.MAX → Any (IsPendingUntil result) (values rows.now.entries) }
{
    let mut earliest = u64::MAX;
    let mut at = rows.first();
    for _ in 0..rows.len() {
        let Some(key) = at else {
            return earliest;
        };
        let (row, after) = rows.at(key);
        if row.pending {
            earliest = earliest.min(row.deadline);
        }
        at = after;
    }
    earliest
}

/// Whether some row is one that this connection waits for.
pub fn some_await<T: Copy>(rows: &Chain<Row<T>>, conn: ConnId) -> bool
    ensures { result ≡ list_any (λ r. r.pending && (r.conn == conn)) (values rows.now.entries) }
{
    let mut at = rows.first();
    for _ in 0..rows.len() {
        let Some(key) = at else {
            return false;
        };
        let (row, after) = rows.at(key);
        if is_awaited(&row, conn) {
            return true;
        }
        at = after;
    }
    false
}

// One more, where a row is awaited.
fn with_one(count: usize, awaited: bool) -> usize
    requires { count < usize.MAX }
    ensures { result ≡ count + (if awaited then 1 else 0) }
{
    if awaited { count + 1 } else { count }
}

/// How many rows this connection waits for.
pub fn how_many_await<T: Copy>(rows: &Chain<Row<T>>, conn: ConnId) -> usize
    ensures { result ≡ waiting_of conn (values rows.now.entries) }
{
    let mut count = 0;
    let mut at = rows.first();
    for _ in 0..rows.len() {
        let Some(key) = at else {
            return count;
        };
        let (row, after) = rows.at(key);
        count = with_one(count, is_awaited(&row, conn));
        at = after;
    }
    count
}

/// Nobody waits any more for the numbers of this connection.
pub fn orphan<T: Copy>(rows: &mut Chain<Row<T>>, conn: ConnId)
    ensures entries { rows.new.entries ≡ map (on_row (settled_where (λ r. conn == r.conn))) rows.old.entries }
    ensures capacity { rows.new.capacity ≡ rows.old.capacity }
{
    let mut at = rows.first();
    for _ in 0..rows.len() {
        let Some(key) = at else {
            return;
        };
        let (mut row, after) = rows.at(key);
        row.pending = (conn != row.conn) & row.pending;
        rows.set(key, row);
        at = after;
    }
}
