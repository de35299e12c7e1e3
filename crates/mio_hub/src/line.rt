//! The sockets over which a hub's modem is reached.
ghost use Rattle.std.specs.Prelude.{◌≡◌, ℕ, ◌<◌, ◌≤◌, length, IfOk};
ghost use Rattle.mio_hub.specs.Reading.{GaveFits};

use crate::peer::{Gave, Peer, Reading};
use link_io::TAKE_ROOM;
use mio::Registry;
use mio::event::Event;
use node_frame::whole_front;
use std::io;

/// One socket both ways, or two of them where a node is reached through its pumps.
#[derive(Drop)]
pub(crate) struct Line {
    input: Peer,
    /// What goes out, where that is a socket of its own.
    output: Option<Peer>,
}

impl Line {
    pub(crate) fn of_socket(socket: Peer) -> Self {
        Line {
            input: socket,
            output: None,
        }
    }

    pub(crate) fn of_pumps(input: Peer, output: Peer) -> Self {
        Line {
            input,
            output: Some(output),
        }
    }

    /// The last writing took nothing, and no room was found since.
    pub(crate) fn is_full(&self) -> bool {
        match &self.output {
            Some(output) => output.is_full(),
            None => self.input.is_full(),
        }
    }

    /// Whether an event says that a full line has room again.
    pub(crate) fn finds_room(&mut self, event: &Event) -> bool {
        self.output().finds_room(event)
    }

    /// Reads once for an event. What comes in where bytes only go out is passed over.
    pub(crate) fn read(&mut self, registry: &Registry, event: &Event, buf: &mut [u8]) -> Reading
        requires { 0 < length buf.old }
        ensures fits { GaveFits result.gave (length buf.new) }
        ensures len { length buf.new ≡ length buf.old }
    {
        match &mut self.output {
            Some(output) if output.is_of(event) => without_bytes(output.read(registry, event, buf)),
            _ => self.input.read(registry, event, buf),
        }
    }

    /// Writes once. A line that takes nothing now is full. A pump is written whole messages, so that
    /// it finds no part of one where it looks between two writings.
    pub(crate) fn write(&mut self, bytes: &[u8]) -> io::Result<usize>
        ensures within { IfOk result (λ count. count ≤ length bytes.now) }
    {
        match &mut self.output {
            Some(output) => output.write(whole_messages(bytes)),
            None => self.input.write(bytes),
        }
    }

    fn output(&mut self) -> &mut Peer {
        match &mut self.output {
            Some(output) => output,
            None => &mut self.input,
        }
    }
}

// The whole messages that a pump takes at once, or all the bytes where there are none.
fn whole_messages(bytes: &[u8]) -> &[u8]
    ensures within { length result.now ≤ length bytes.now }
{
    let near = &bytes[..bytes.len().min(TAKE_ROOM)];
    match whole_front(near) {
        0 => bytes,
        count => &near[..count],
    }
}

// The same reading, but that it gave no bytes.
fn without_bytes(reading: Reading) -> Reading
    ensures { (room : ℕ) → GaveFits result.gave room }
{
    match reading.gave {
        Gave::Bytes(_) => Reading {
            gave: Gave::Nothing,
            is_last: reading.is_last,
        },
        Gave::Nothing | Gave::End => reading,
    }
}
