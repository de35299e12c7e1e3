use core_bench::{BenchNote, MemBench};
use hub_io::Limits;
use kit_bytes::Kind;
use row_text::{RowFault, Rows, differs_at};
use std::alloc::{AllocError, Global};

/// What is run on the bench, as a row tells it, and whether the clients take the same bytes alone.
#[derive(Drop)]
pub struct BenchRuns {
    notes: Vec<(BenchNote, Vec<u8>)>,
    pub same_alone: bool,
}

impl BenchRuns {
    /// Nothing is told.
    pub fn none(alloc: Global) -> Self {
        BenchRuns {
            notes: Vec::new(alloc),
            same_alone: false,
        }
    }

    /// Adds what a key of a row tells of, where the key is one of these.
    pub fn add(
        &mut self,
        alloc: Global,
        rows: &Rows<'_>,
        key: &str,
        value: &str,
    ) -> Result<bool, RowFault> {
        match key {
            "same alone" => self.same_alone = true,
            "runs" => self.note(opening_of(value)?, Vec::from_slice(alloc, b"rig")?)?,
            "piece" => {
                let (conn, bytes) = pair_of(value)?;
                let note = BenchNote::Piece(conn.parse::<u64>()?);
                self.note(note, rows.bytes_of(bytes)?)?;
            }
            "modem piece" => self.note(BenchNote::ModemPiece, rows.bytes_of(value)?)?,
            _ => match note_of(key, value)? {
                Some(note) => self.note(note, Vec::new(alloc))?,
                None => return Ok(false),
            },
        }
        Ok(true)
    }

    fn note(&mut self, note: BenchNote, bytes: Vec<u8>) -> Result<(), RowFault> {
        self.notes.push((note, bytes))?;
        Ok(())
    }

    /// A bench with room to tell of so much.
    pub fn bench(&self, alloc: Global) -> Result<MemBench, AllocError> {
        if self.same_alone {
            MemBench::new(alloc, 1_000_000, 20_000_000)
        } else {
            MemBench::new(alloc, 1_000, 100_000)
        }
    }

    /// Which note of the bench isn't as it is told, if one isn't and any is told.
    pub fn differs_at(&self, bench: &MemBench) -> Option<usize> {
        if self.notes.is_empty() {
            return None;
        }
        differs_at(bench.log(), &self.notes)
    }
}

// A core for the device `rig` is opened, with 30 seconds for an answer.
fn opening_of(kind: &str) -> Result<BenchNote, RowFault> {
    let kind = match kind {
        "qmi" => Kind::Qmi,
        "mbim" => Kind::Mbim,
        _ => return Err(RowFault::new("no kind")),
    };
    let limits = Limits {
        time: 30_000,
        release: None,
    };
    Ok(BenchNote::Opened { kind, limits })
}

// What a key of a row tells of that has no bytes.
fn note_of(key: &str, value: &str) -> Result<Option<BenchNote>, RowFault> {
    Ok(Some(match key {
        "joined" => BenchNote::Joined(value.parse::<u64>()?),
        "took" => {
            let (conn, count) = pair_of(value)?;
            BenchNote::Took(conn.parse::<u64>()?, count.parse::<usize>()?)
        }
        "modem took" => BenchNote::ModemTook(value.parse::<usize>()?),
        "now" => BenchNote::Now(value.parse::<u64>()?),
        _ => return Ok(None),
    }))
}

// What stands before and behind the first space.
fn pair_of(value: &str) -> Result<(&str, &str), RowFault> {
    value
        .split_once(' ')
        .ok_or(RowFault::new("nothing behind a client"))
}
