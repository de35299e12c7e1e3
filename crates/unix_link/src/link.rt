ghost use Rattle.std.specs.Prelude.{◌≡◌, ◌≤◌, true, false, [], ◌∷◌, None, is_ok, length, IfOk, OnOk, IsSome};
ghost use Rattle.kit_io.specs.Causes.{HasCause, Rose};
ghost use Rattle.kit_io.specs.Counts.{one_more};
ghost use Rattle.kit_io.specs.Growth.{Grows};
ghost use Rattle.link_io.specs.Calls.{Opened, Paired, Closed, Sends};
ghost use Rattle.link_io.specs.Target.{address_of};
ghost use Rattle.unix_link.specs.Reached.{IsReached};

use crate::bridge::{Bridge, Pumps};
use crate::message_stream::MessageStream;
use kit_io::{CallCount, Failed, Faults};
use link_io::{Link, Taken, Target};
use std::alloc::Global;
use std::cell::Cell;
use std::fs::{File, Files};
use std::io::{self, ErrorKind, Read, Write};
use std::net::Net;
use std::os::fd::RawFd;
use std::os::unix::net::UnixStream;
use std::rt::Clock;
use std::thread;
use std::time::Duration;
use watched_link::Complain;

/// The streams of a link that may be sent to.
#[derive(Drop)]
enum Streams {
    OfSocket(MessageStream),
    OfBridge(Pumps),
}

impl Streams {
    fn read(&mut self, buffer: &mut [u8]) -> io::Result<usize>
        ensures within { IfOk result (λ count. count ≤ length buffer.old) }
        ensures len { length buffer.new ≡ length buffer.old }
    {
        match self {
            Streams::OfSocket(stream) => stream.read(buffer),
            Streams::OfBridge(pumps) => pumps.read.read(buffer),
        }
    }

    fn write_all(&mut self, bytes: &[u8]) -> io::Result<()> {
        match self {
            Streams::OfSocket(stream) => stream.write_all(bytes),
            Streams::OfBridge(pumps) => pumps.write.write_all(bytes),
        }
    }
}

/// A link over a Unix socket, or over a bridge. It tells no content.
///
/// A tick is 100 ms, and `open` waits for one before it fails. A bridge is a socket of its owner
/// alone, whose file goes when the link is closed; its opening fails where something stands at the
/// path, unless that is a socket to which nobody listens, and `pair` waits for at most 300 ticks.
#[derive(Drop)]
pub struct UnixLink<'a, R: Files> {
    rt: &'a R,
    alloc: Global,
    /// The descriptor of the socket, or -1 where none is open.
    descriptor: &'a Cell<RawFd>,
    bridge: Option<Bridge<'a, R>>,
    streams: Option<Streams>,
    ended: bool,
    open_faults: Faults,
    faults: Faults,
    made: CallCount,
    /// What the system said of the call that failed last.
    complaint: Option<io::Error>,
}

impl<'a, R: Net + Clock + Files<File = File>> UnixLink<'a, R> {
    /// A link that isn't open. While it is open to a socket, the descriptor of that stands in the
    /// cell, and else -1.
    pub fn new(rt: &'a R, alloc: Global, descriptor: &'a Cell<RawFd>) -> Self
        ensures no_streams { result.streams ≡ None }
        ensures no_bridge { result.bridge ≡ None }
        ensures ended { result.ended ≡ false }
        ensures open_faults { result.open_faults ≡ 0 }
        ensures faults { result.faults ≡ 0 }
        ensures made { result.made ≡ 0 }
    {
        UnixLink {
            rt,
            alloc,
            descriptor,
            bridge: None,
            streams: None,
            ended: false,
            open_faults: Faults::none(),
            faults: Faults::none(),
            made: CallCount::none(),
            complaint: None,
        }
    }

    fn reach(&mut self, target: &Target) -> io::Result<()>
        ensures reached { OnOk result (IsReached target.now self.new.streams self.new.bridge) }
        ensures ended { self.new.ended ≡ self.old.ended }
        ensures open_faults { self.new.open_faults ≡ self.old.open_faults }
        ensures faults { self.new.faults ≡ self.old.faults }
        ensures made { self.new.made ≡ self.old.made }
    {
        match target {
            Target::Socket(path) => {
                let stream = UnixStream::connect(self.rt, path.as_str())?;
                stream.set_read_timeout(Some(tick()))?;
                let stream = MessageStream::new(self.alloc, stream)?;
                self.descriptor.set(stream.descriptor());
                self.streams = Some(Streams::OfSocket(stream));
            }
            Target::Bridge(path) => {
                self.bridge = Some(Bridge::listen(self.rt, self.alloc, path.as_str())?);
            }
        }
        Ok(())
    }

    fn meet(&mut self) -> io::Result<()>
        ensures met { OnOk result (IsSome self.new.streams) }
        ensures ended { self.new.ended ≡ self.old.ended }
        ensures open_faults { self.new.open_faults ≡ self.old.open_faults }
        ensures faults { self.new.faults ≡ self.old.faults }
        ensures made { self.new.made ≡ self.old.made }
    {
        let Some(bridge) = &self.bridge else {
            return Err(ErrorKind::NotConnected.into());
        };
        self.streams = Some(Streams::OfBridge(bridge.pair()?));
        Ok(())
    }

    fn write(&mut self, bytes: &[u8]) -> io::Result<()>
        ensures open { OnOk result (IsSome self.old.streams) }
        ensures ended { self.new.ended ≡ self.old.ended }
        ensures open_faults { self.new.open_faults ≡ self.old.open_faults }
        ensures faults { self.new.faults ≡ self.old.faults }
        ensures made { self.new.made ≡ self.old.made }
    {
        let Some(streams) = &mut self.streams else {
            return Err(ErrorKind::NotConnected.into());
        };
        streams.write_all(bytes)
    }

    // A call other than `open` failed for this reason.
    fn failed(&mut self, error: io::Error) -> Failed
        ensures later { self.old.faults ≤ self.new.faults }
        ensures rose { Rose self.old.faults self.new.faults }
        ensures ended { self.new.ended ≡ self.old.ended }
        ensures open_faults { self.new.open_faults ≡ self.old.open_faults }
        ensures made { self.new.made ≡ self.old.made }
    {
        self.complaint = Some(error);
        self.faults.fail()
    }
}

fn tick() -> Duration {
    Duration::from_millis(100)
}

impl<R: Net + Clock + Files<File = File>> Link for UnixLink<'_, R> {
    ghost calls = { λ _. None };

    ghost ended = { λ s. s.ended };

    ghost open_faults = { λ s. s.open_faults };

    ghost faults = { λ s. s.faults };

    ghost made = { λ s. s.made };

    fn made(&self) -> u64 {
        self.made.value()
    }

    fn open(&mut self, target: &Target) -> Result<(), Failed>
        ensures calls { Grows None (Opened (address_of target.now) (is_ok result) ∷ []) None }
        ensures ended { self.old.ended ≡ true → self.new.ended ≡ true }
        ensures cause { HasCause self.old.open_faults self.new.open_faults result }
        ensures later { self.old.faults ≤ self.new.faults }
        ensures made { self.new.made ≡ one_more self.old.made }
        ensures reached { OnOk result (IsReached target.now self.new.streams self.new.bridge) }
    {
        self.made.add();
        let Err(error) = self.reach(target) else {
            return Ok(());
        };
        self.complaint = Some(error);
        thread::sleep(self.rt, tick());
        Err(self.open_faults.fail())
    }

    fn pair(&mut self) -> Result<(), Failed>
        ensures calls { Grows None (Paired (is_ok result) ∷ []) None }
        ensures ended { self.old.ended ≡ true → self.new.ended ≡ true }
        ensures cause { HasCause self.old.faults self.new.faults result }
        ensures later { self.old.open_faults ≤ self.new.open_faults }
        ensures made { self.new.made ≡ one_more self.old.made }
        ensures met { OnOk result (IsSome self.new.streams) }
    {
        self.made.add();
        match self.meet() {
            Ok(()) => Ok(()),
            Err(error) => Err(self.failed(error)),
        }
    }

    fn send(&mut self, bytes: &[u8]) -> Result<(), Failed>
        ensures calls { Sends None bytes.now result None }
        ensures ended { self.old.ended ≡ true → self.new.ended ≡ true }
        ensures cause { HasCause self.old.faults self.new.faults result }
        ensures later { self.old.open_faults ≤ self.new.open_faults }
        ensures made { self.new.made ≡ one_more self.old.made }
        ensures open { OnOk result (IsSome self.old.streams) }
    {
        self.made.add();
        match self.write(bytes) {
            Ok(()) => Ok(()),
            Err(error) => Err(self.failed(error)),
        }
    }

    fn take(&mut self, buffer: &mut [u8]) -> Result<Taken, Failed> {
        self.made.add();
        if self.ended {
            return Ok(Taken::End);
        }
        let Some(streams) = &mut self.streams else {
            return Err(self.failed(ErrorKind::NotConnected.into()));
        };
        match streams.read(buffer) {
            Ok(0) => {
                self.ended = true;
                Ok(Taken::End)
            }
            Ok(count) => Ok(Taken::Bytes(count)),
            Err(error) => match error.kind() {
                ErrorKind::WouldBlock | ErrorKind::TimedOut | ErrorKind::Interrupted => {
                    Ok(Taken::Quiet)
                }
                _ => Err(self.failed(error)),
            },
        }
    }

    fn close(&mut self)
        ensures calls { Grows None (Closed ∷ []) None }
        ensures ended { self.old.ended ≡ true → self.new.ended ≡ true }
        ensures later { self.old.faults ≤ self.new.faults }
        ensures later_open { self.old.open_faults ≤ self.new.open_faults }
        ensures made { self.new.made ≡ one_more self.old.made }
        ensures no_streams { self.new.streams ≡ None }
        ensures no_bridge { self.new.bridge ≡ None }
    {
        self.made.add();
        self.descriptor.set(-1);
        self.streams = None;
        self.bridge = None;
    }
}

impl<R: Net + Clock + Files<File = File>> Complain for UnixLink<'_, R> {
    fn complaint(&self) -> Option<io::Error> {
        self.complaint
    }
}
