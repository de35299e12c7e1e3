//! A socket whose reads end with a message.
ghost use Rattle.std.specs.Prelude.{◌≡◌, ◌≤◌, length, IfOk};

use framing::{Framing, Size};
use link_io::TAKE_ROOM;
use node_frame::{NodeMessage, whole_front};
use std::alloc::{AllocError, Global};
use std::io::{self, Read, Write};
use std::os::fd::{AsRawFd, RawFd};
use std::os::unix::net::UnixStream;

/// A stream of messages of QMI or MBIM. A read gives whole messages where one is there, and else a
/// part of one; what is left of that comes by itself. So whoever passes on what a read gave cuts no
/// message that was sent at once.
#[derive(Drop)]
pub(crate) struct MessageStream {
    socket: UnixStream,
    /// What came behind the whole messages that were given: the beginning of the next one.
    begun: Vec<u8>,
    /// How many bytes are to come of a message of which a part was given.
    missing: usize,
}

impl MessageStream {
    /// It takes the memory for what begins a message here.
    pub(crate) fn new(alloc: Global, socket: UnixStream) -> Result<Self, AllocError> {
        Ok(MessageStream {
            socket,
            begun: Vec::with_capacity(alloc, TAKE_ROOM)?,
            missing: 0,
        })
    }

    /// Reads once. What is begun stays for the next read where nothing comes, and is given where
    /// nothing will come any more.
    pub(crate) fn read(&mut self, buffer: &mut [u8]) -> io::Result<usize>
        ensures within { IfOk result (λ count. count ≤ length buffer.old) }
        ensures len { length buffer.new ≡ length buffer.old }
    {
        let begun = self.begun.len().min(buffer.len());
        buffer[..begun].copy_from_slice(&self.begun[..begun]);
        let came = self.socket.read(&mut buffer[begun..])?;
        self.begun.clear();
        let count = begun + came;
        let given = self.give(&buffer[..count]);
        self.begun.extend_from_slice(&buffer[given..count])?;
        Ok(given)
    }

    // How many of these bytes are given: what is left of a message, whole messages, or all there is.
    fn give(&mut self, bytes: &[u8]) -> usize
        ensures { result ≤ length bytes.now }
    {
        if self.missing > 0 {
            let count = self.missing.min(bytes.len());
            self.missing -= count;
            return count;
        }
        let whole = whole_front(bytes);
        if whole > 0 {
            return whole;
        }
        if let Size::Known(length) = NodeMessage::size(bytes) {
            self.missing = length.saturating_sub(bytes.len());
        }
        bytes.len()
    }

    pub(crate) fn write_all(&mut self, bytes: &[u8]) -> io::Result<()> {
        self.socket.write_all(bytes)
    }

    pub(crate) fn descriptor(&self) -> RawFd {
        self.socket.as_raw_fd()
    }
}
