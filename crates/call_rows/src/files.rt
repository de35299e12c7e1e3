use file_io::{FileAnswer, Made, MemFiles, READ_ROOM, Side};
use row_text::{RowFault, Rows, differs_at};
use std::alloc::{AllocError, Global};

/// The calls that a run makes on files: how they answer, and what their log tells.
#[derive(Drop)]
pub struct FileCalls {
    calls: Vec<(Made, Vec<u8>)>,
    // Whether each call is told, with the path that is opened.
    is_told: bool,
    /// How many calls are made, where a row tells that.
    pub count: Option<usize>,
}

impl FileCalls {
    /// Nothing is told.
    pub fn none(alloc: Global) -> Self {
        FileCalls {
            calls: Vec::new(alloc),
            is_told: false,
            count: None,
        }
    }

    /// Adds the call that a key of a row tells of, where the key is one of these.
    pub fn add(
        &mut self,
        alloc: Global,
        rows: &Rows<'_>,
        key: &str,
        value: &str,
    ) -> Result<bool, RowFault> {
        match key {
            "opens to read" => self.add_opening(alloc, Side::Read, true, value)?,
            "open to read fails" => self.add_opening(alloc, Side::Read, false, value)?,
            "opens to write" => self.add_opening(alloc, Side::Write, true, value)?,
            "open to write fails" => self.add_opening(alloc, Side::Write, false, value)?,
            "file open fails" => self.push(alloc, opened(Side::Read, false), &[])?,
            "file" => self.add_reads(alloc, value.as_bytes())?,
            "file bytes" => self.add_bytes(alloc, rows, value)?,
            "file ends" => self.add_call(alloc, Made::Gave, &[])?,
            "read fails" => self.add_call(alloc, Made::ReadFailed, &[])?,
            "writes" => self.add_write(alloc, rows, value)?,
            "write fails" => self.add_call(alloc, Made::WriteFailed, &[])?,
            "file calls" => self.count = Some(value.parse::<usize>()?),
            _ => return Ok(false),
        }
        Ok(true)
    }

    fn add_opening(
        &mut self,
        alloc: Global,
        side: Side,
        ok: bool,
        path: &str,
    ) -> Result<(), AllocError> {
        self.is_told = true;
        self.push(alloc, opened(side, ok), path.as_bytes())
    }

    // Adds reads that give bytes, as many as fit each.
    fn add_reads(&mut self, alloc: Global, bytes: &[u8]) -> Result<(), AllocError> {
        for piece in bytes.chunks(READ_ROOM) {
            self.add_call(alloc, Made::Gave, piece)?;
        }
        Ok(())
    }

    fn add_bytes(&mut self, alloc: Global, rows: &Rows<'_>, value: &str) -> Result<(), RowFault> {
        let bytes = rows.bytes_of(value)?;
        Ok(self.add_reads(alloc, &bytes)?)
    }

    fn add_write(&mut self, alloc: Global, rows: &Rows<'_>, value: &str) -> Result<(), RowFault> {
        let bytes = rows.bytes_of(value)?;
        Ok(self.add_call(alloc, Made::Took, &bytes)?)
    }

    // Adds a call behind an opening.
    fn add_call(&mut self, alloc: Global, made: Made, bytes: &[u8]) -> Result<(), AllocError> {
        if self.calls.is_empty() {
            self.push(alloc, opened(Side::Read, true), &[])?;
        }
        self.push(alloc, made, bytes)
    }

    fn push(&mut self, alloc: Global, made: Made, bytes: &[u8]) -> Result<(), AllocError> {
        let bytes = Vec::from_slice(alloc, bytes)?;
        self.calls.push((made, bytes))?;
        Ok(())
    }

    /// Files that answer so, with room to tell of so much.
    pub fn files(&self, alloc: Global) -> Result<MemFiles, AllocError> {
        let mut script = Vec::new(alloc);
        self.push_answers(alloc, &mut script)?;
        MemFiles::new(alloc, script, 2_000, 20_000_000)
    }

    fn push_answers(&self, alloc: Global, script: &mut Vec<FileAnswer>) -> Result<(), AllocError> {
        for (made, bytes) in &self.calls {
            script.push(answer_of(alloc, *made, bytes)?)?;
        }
        Ok(())
    }

    /// Which call on the files isn't as it is told, if one isn't and each is told.
    pub fn differs_at(&self, files: &MemFiles) -> Option<usize> {
        if !self.is_told {
            return None;
        }
        differs_at(files.log(), &self.calls)
    }
}

fn opened(side: Side, ok: bool) -> Made {
    Made::Opened { side, ok }
}

// The answer by which a call is this one.
fn answer_of(alloc: Global, made: Made, bytes: &[u8]) -> Result<FileAnswer, AllocError> {
    Ok(match made {
        Made::Opened { ok: false, .. } | Made::ReadFailed | Made::WriteFailed => FileAnswer::Fails,
        Made::Gave if !bytes.is_empty() => FileAnswer::Gives(Vec::from_slice(alloc, bytes)?),
        Made::Took => FileAnswer::Takes(bytes.len()),
        Made::Opened { ok: true, .. } | Made::Gave | Made::Closed => FileAnswer::Does,
    })
}
