//! A socket that is read and written without waiting.
ghost use Rattle.std.specs.Prelude.{◌≡◌, ◌<◌, ◌≤◌, length, IfOk};
ghost use Rattle.mio_hub.specs.Reading.{GaveFits};

use crate::pace::{Pace, is_dear};
use mio::event::Event;
use mio::net::UnixStream;
use mio::{Interest, Registry, Token};
use std::io::{self, ErrorKind, Read, Write};
use std::rt::Clock;
use std::time::Instant;

/// How often a writing is tried that signals interrupt.
const ATTEMPTS: u32 = 16;

/// What a reading gave.
#[derive(Clone, Copy)]
pub(crate) enum Gave {
    /// So many bytes stand at the front of the buffer.
    Bytes(usize),
    Nothing,
    /// Nothing will come any more.
    End,
}

/// A reading that was made for an event.
#[derive(Clone, Copy)]
pub(crate) struct Reading {
    pub(crate) gave: Gave,
    /// The event has told all.
    pub(crate) is_last: bool,
}

/// One client's socket, or the modem's.
#[derive(Drop)]
pub(crate) struct Peer {
    stream: UnixStream,
    token: Token,
    /// The last writing took nothing, and no room was found since.
    is_full: bool,
    pub(crate) pace: Pace,
}

fn both_ways() -> Interest {
    Interest::READABLE | Interest::WRITABLE
}

fn has_input(event: &Event) -> bool {
    event.is_readable() || event.is_read_closed() || event.is_error()
}

impl Peer {
    /// Has the registry tell of this socket under the token.
    pub(crate) fn new(
        registry: &Registry,
        mut stream: UnixStream,
        token: Token,
    ) -> io::Result<Self> {
        registry.register(&mut stream, token, both_ways())?;
        Ok(Peer {
            stream,
            token,
            is_full: false,
            pace: Pace::free(),
        })
    }

    pub(crate) fn is_full(&self) -> bool {
        self.is_full
    }

    /// Whether an event is about this socket.
    pub(crate) fn is_of(&self, event: &Event) -> bool {
        event.token() == self.token
    }

    /// Whether an event says that a full socket has room again.
    pub(crate) fn finds_room(&mut self, event: &Event) -> bool {
        let finds = self.is_full && self.is_of(event) && event.is_writable();
        if finds {
            self.is_full = false;
        }
        finds
    }

    /// Has the registry tell of room alone.
    pub(crate) fn rest(&mut self, registry: &Registry) {
        let _ = registry.reregister(&mut self.stream, self.token, Interest::WRITABLE);
    }

    /// Has the registry tell of bytes as well again, also of those that came meanwhile.
    pub(crate) fn wake(&mut self, registry: &Registry) {
        let _ = registry.reregister(&mut self.stream, self.token, both_ways());
    }

    /// Whether the client is to be left alone for a while behind a piece of so many bytes, which was
    /// begun to be read at that time: where it is the second in turn of few bytes, or a dear slice.
    pub(crate) fn rests_behind<R: Clock>(
        &mut self,
        rt: &R,
        registry: &Registry,
        count: usize,
        began: Option<Instant>,
    ) -> bool {
        if !self.pace.is_sliced() {
            return self.pace.take(count);
        }
        let read = Instant::now(rt).ok();
        self.wake(registry);
        let asked = Instant::now(rt).ok();
        self.pace.take_slice(is_dear(began, read, asked))
    }

    /// Reads once for an event, if it says that there is something to read.
    ///
    /// What comes after a reading that left room in the buffer is a new event. After one that left
    /// none, the registry is asked to tell again what there is.
    pub(crate) fn read(&mut self, registry: &Registry, event: &Event, buf: &mut [u8]) -> Reading
        requires { 0 < length buf.old }
        ensures fits { GaveFits result.gave (length buf.new) }
        ensures len { length buf.new ≡ length buf.old }
    {
        let room = self.room(event, buf.len());
        let (gave, is_last) = if has_input(event) {
            match self.stream.read(&mut buf[..room]) {
                Ok(0) => (Gave::End, true),
                Ok(count) if count < room => {
                    self.pace.found_all();
                    (Gave::Bytes(count), !event.is_read_closed())
                }
                Ok(count) => {
                    self.wake(registry);
                    (Gave::Bytes(count), true)
                }
                Err(error) => match error.kind() {
                    ErrorKind::WouldBlock => (Gave::Nothing, true),
                    ErrorKind::Interrupted => (Gave::Nothing, false),
                    _ => (Gave::End, true),
                },
            }
        } else {
            (Gave::Nothing, true)
        };
        Reading { gave, is_last }
    }

    // How much is read at once of a buffer of this length. Nobody waits for more of one that went.
    fn room(&self, event: &Event, len: usize) -> usize
        requires { 0 < len }
        ensures some { 0 < result }
        ensures fits { result ≤ len }
    {
        if event.is_read_closed() {
            len
        } else {
            self.pace.room(len)
        }
    }

    /// Writes once. A socket that takes nothing now is full.
    pub(crate) fn write(&mut self, bytes: &[u8]) -> io::Result<usize>
        ensures within { IfOk result (λ count. count ≤ length bytes.now) }
    {
        match self.write_through(bytes) {
            Ok(count) if count > 0 => Ok(count),
            Ok(_) => Err(ErrorKind::WriteZero.into()),
            Err(error) if error.kind() == ErrorKind::WouldBlock => {
                self.is_full = true;
                Ok(0)
            }
            Err(error) => Err(error),
        }
    }

    // Writes, and again where a signal came between.
    fn write_through(&mut self, bytes: &[u8]) -> io::Result<usize>
        ensures within { IfOk result (λ count. count ≤ length bytes.now) }
    {
        for _ in 0..ATTEMPTS {
            match self.stream.write(bytes) {
                Err(error) if error.kind() == ErrorKind::Interrupted => {}
                written => return written,
            }
        }
        Err(ErrorKind::Interrupted.into())
    }
}
