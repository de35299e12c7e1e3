use child_io::{Made, MemSpawner, SpawnerAnswer};
use row_text::{RowFault, differs_at, words_of};
use std::alloc::{AllocError, Global};

/// The children that a run starts, waits for and stops: how the spawner answers, and what its log tells.
#[derive(Drop)]
pub struct KidCalls {
    answers: Vec<SpawnerAnswer>,
    notes: Vec<(Made, Vec<u8>)>,
    // How many children were started.
    started: u32,
}

fn does(ok: bool) -> SpawnerAnswer {
    if ok {
        SpawnerAnswer::Does
    } else {
        SpawnerAnswer::Fails
    }
}

// The same part of a call, behind so many calls where it is a stop.
fn behind(made: Made, after: u64) -> Made {
    match made {
        Made::Stopped { child, ok, .. } => Made::Stopped { child, ok, after },
        other => other,
    }
}

impl KidCalls {
    /// No child is started.
    pub fn none(alloc: Global) -> Self {
        KidCalls {
            answers: Vec::new(alloc),
            notes: Vec::new(alloc),
            started: 0,
        }
    }

    /// Adds the call that a key of a row tells of, where the key is one of these.
    pub fn add(&mut self, alloc: Global, key: &str, value: &str) -> Result<bool, RowFault> {
        match key {
            "starts" => self.add_start(alloc, value, true)?,
            "start fails" => self.add_start(alloc, value, false)?,
            "stops" => self.add_stop(alloc, value, true)?,
            "stop fails" => self.add_stop(alloc, value, false)?,
            "child ends" => self.add_end(alloc, value)?,
            "child end fails" => self.add_failed_end(alloc, value)?,
            _ => return Ok(false),
        }
        Ok(true)
    }

    fn add_start(&mut self, alloc: Global, words: &str, ok: bool) -> Result<(), RowFault> {
        self.note(alloc, Made::Starts, &[])?;
        self.note_words(alloc, words)?;
        let made = if ok {
            self.started = self.started.saturating_add(1);
            Made::Started {
                child: self.started,
            }
        } else {
            Made::StartFailed
        };
        self.answer(alloc, made, does(ok))
    }

    fn note_words(&mut self, alloc: Global, words: &str) -> Result<(), RowFault> {
        for word in &words_of(alloc, words)? {
            self.note(alloc, Made::Word, word.as_bytes())?;
        }
        Ok(())
    }

    fn add_stop(&mut self, alloc: Global, child: &str, ok: bool) -> Result<(), RowFault> {
        let child = child.parse::<u32>()?;
        self.answer(
            alloc,
            Made::Stopped {
                child,
                ok,
                after: 0,
            },
            does(ok),
        )
    }

    fn add_end(&mut self, alloc: Global, value: &str) -> Result<(), RowFault> {
        let Some((child, status)) = value.split_once(' ') else {
            return Err(RowFault::new("no child and status"));
        };
        let (child, status) = (child.parse::<u32>()?, status.parse::<i32>()?);
        self.answer(
            alloc,
            Made::Ended { child, status },
            SpawnerAnswer::EndsWith(status),
        )
    }

    fn add_failed_end(&mut self, alloc: Global, child: &str) -> Result<(), RowFault> {
        let child = child.parse::<u32>()?;
        self.answer(alloc, Made::EndFailed { child }, SpawnerAnswer::Fails)
    }

    // Notes a call with no bytes that is answered so.
    fn answer(&mut self, alloc: Global, made: Made, answer: SpawnerAnswer) -> Result<(), RowFault> {
        self.answers.push(answer)?;
        self.note(alloc, made, &[])
    }

    fn note(&mut self, alloc: Global, made: Made, bytes: &[u8]) -> Result<(), RowFault> {
        let bytes = Vec::from_slice(alloc, bytes)?;
        self.notes.push((made, bytes))?;
        Ok(())
    }

    /// A spawner that answers so.
    pub fn spawner(&self, alloc: Global) -> Result<MemSpawner, AllocError> {
        let answers = Vec::from_slice(alloc, &self.answers)?;
        MemSpawner::new(alloc, answers, 100, 10_000)
    }

    /// Which note of the spawner's log isn't as it is told, if one isn't. Each stop is to come behind so
    /// many calls on what the children serve.
    pub fn differs_at(
        &self,
        alloc: Global,
        spawner: &MemSpawner,
        after: u64,
    ) -> Result<Option<usize>, AllocError> {
        let mut notes = Vec::new(alloc);
        for (made, bytes) in &self.notes {
            let bytes = Vec::from_slice(alloc, bytes)?;
            notes.push((behind(*made, after), bytes))?;
        }
        Ok(differs_at(spawner.log(), &notes))
    }
}
