//! The route to a hub's modem.
ghost use Rattle.std.specs.Prelude.{◌≡◌, ◌<◌, ◌≤◌, length, IfOk};
ghost use Rattle.mio_hub.specs.Reading.{GaveFits};

use crate::line::Line;
use crate::peer::Reading;
use mio::Registry;
use mio::event::Event;
use std::alloc::{AllocError, Global};
use std::io;

/// How many bytes may be gathered until the events at hand are served.
const GATHERED: usize = 65_536;

/// A modem's line. What is sent while events are at hand is gathered, so that one writing serves
/// many clients; it is written at the last of these events, and before the line closes.
pub(crate) struct Modem {
    line: Line,
    /// Taken, and not yet written.
    gathered: Vec<u8>,
    /// A sending took nothing, and no room was told since.
    owes_room: bool,
}

impl Modem {
    /// It takes the memory for what it gathers here.
    pub(crate) fn new(alloc: Global, line: Line) -> Result<Self, AllocError> {
        Ok(Modem {
            line,
            gathered: Vec::with_capacity(alloc, GATHERED)?,
            owes_room: false,
        })
    }

    /// Whether an event says that there is room again after a sending that took nothing.
    pub(crate) fn finds_room(&mut self, event: &Event) -> io::Result<bool> {
        if self.line.finds_room(event) {
            self.write_gathered()?;
        }
        let finds = self.owes_room && !self.line.is_full();
        if finds {
            self.owes_room = false;
        }
        Ok(finds)
    }

    pub(crate) fn read(&mut self, registry: &Registry, event: &Event, buf: &mut [u8]) -> Reading
        requires { 0 < length buf.old }
        ensures fits { GaveFits result.gave (length buf.new) }
        ensures len { length buf.new ≡ length buf.old }
    {
        self.line.read(registry, event, buf)
    }

    /// Takes what there is room for.
    pub(crate) fn take(&mut self, bytes: &[u8], is_last: bool) -> io::Result<usize>
        ensures within { IfOk result (λ count. count ≤ length bytes.now) }
    {
        let count = if is_last && self.gathered.is_empty() && !self.line.is_full() {
            self.line.write(bytes)?
        } else {
            self.gather(bytes, is_last)?
        };
        self.owes_room = count == 0;
        Ok(count)
    }

    // Takes bytes to those that were gathered.
    fn gather(&mut self, bytes: &[u8], is_last: bool) -> io::Result<usize>
        ensures within { IfOk result (λ count. count ≤ length bytes.now) }
    {
        if self.room() < bytes.len() {
            self.write_gathered()?;
        }
        let count = self.room().min(bytes.len());
        self.gathered.extend_from_slice(&bytes[..count])?;
        if is_last {
            self.write_gathered()?;
        }
        Ok(count)
    }

    // How many bytes more may be gathered.
    fn room(&self) -> usize {
        GATHERED.saturating_sub(self.gathered.len())
    }

    /// Writes what was gathered, as far as the line takes it.
    pub(crate) fn write_gathered(&mut self) -> io::Result<()> {
        while !self.gathered.is_empty() && !self.line.is_full() {
            let count = self.line.write(&self.gathered)?;
            if count == 0 {
                break;
            }
            let kept = self.gathered.len() - count;
            self.gathered.copy_within(count.., 0);
            self.gathered.truncate(kept);
        }
        Ok(())
    }
}

impl Drop for Modem {
    fn drop(mut self) {
        let _ = self.write_gathered();
        let Modem {
            line,
            gathered,
            owes_room: _,
        } = self;
        drop(line);
        drop(gathered);
    }
}
