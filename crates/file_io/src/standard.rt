ghost use Rattle.std.specs.Prelude.{◌≡◌, ◌<◌, ◌≤◌, None, IfOk, length, string_bytes};

use crate::{Complain, Files, Side};
use kit_io::{Failed, Faults, system_words};
use libc::STDIN_FILENO;
use libc::net::{POLLERR, POLLHUP, POLLIN, POLLNVAL, POLLOUT, poll};
use libc::types::pollfd;
use std::alloc::Global;
use std::cell::Cell;
use std::fs::{self, File, OpenFile, OpenOptions, TryLockError};
use std::io::{self, ErrorKind, Read, Write};
use std::os::fd::{AsFd, AsRawFd, RawFd};
use std::os::unix::fs::FileTypeExt;
use std::os::unix::net::UnixStream;

// The number of the system's error for what is in use.
const EBUSY: i32 = 16;

/// The files of the file system. They tell no content.
///
/// A file that is opened for writing is there already, and is written from its start on.
///
/// A character device that is opened while a link is open is a modem's node. It has one reader: its
/// opening fails where another one reads it. It is waited for beside the link and the program's input.
/// Where it gives or takes nothing, and one of these is hung up, it has ended: whoever started the
/// program over a pipe is gone then, or whoever it serves.
#[derive(Drop)]
pub struct StdFiles<'a, R: fs::Files> {
    rt: &'a R,
    alloc: Global,
    /// The descriptor of the link, or -1 where none is open.
    link: &'a Cell<RawFd>,
    file: Option<R::File>,
    is_node: bool,
    read_faults: Faults,
    write_faults: Faults,
    /// What the system says of the call that failed last, as far as there is memory for it.
    words: String,
}

impl<'a, R: fs::Files> StdFiles<'a, R> {
    /// The files of a file system, none of them open, beside a link whose descriptor stands in the
    /// cell, or -1 where it isn't open.
    pub fn new(rt: &'a R, alloc: Global, link: &'a Cell<RawFd>) -> Self {
        StdFiles {
            rt,
            alloc,
            link,
            file: None,
            is_node: false,
            read_faults: Faults::none(),
            write_faults: Faults::none(),
            words: String::new(alloc),
        }
    }
}

impl<R: fs::Files<File = File>> StdFiles<'_, R> {
    // Reads the file that is open.
    fn read_open(&mut self, buffer: &mut [u8]) -> io::Result<usize>
        ensures within { IfOk result (λ count. count ≤ length buffer.old) }
        ensures len { length buffer.new ≡ length buffer.old }
        ensures read_faults { self.new.read_faults ≡ self.old.read_faults }
        ensures write_faults { self.new.write_faults ≡ self.old.write_faults }
    {
        let Some(file) = &mut self.file else {
            return Err(ErrorKind::NotConnected.into());
        };
        for _ in 0..u64::MAX {
            if self.is_node && is_abandoned(file.as_raw_fd(), self.link.get(), POLLIN) {
                return Ok(0);
            }
            match file.read(buffer) {
                Err(error) if comes_again(&error) => {}
                read => return read,
            }
        }
        Err(ErrorKind::TimedOut.into())
    }

    // Writes some of the bytes to the file that is open.
    fn write_open(&mut self, bytes: &[u8]) -> io::Result<usize>
        ensures within { IfOk result (λ count. count ≤ length bytes.now) }
        ensures some { IfOk result (λ count. 0 < length bytes.now → 0 < count) }
        ensures read_faults { self.new.read_faults ≡ self.old.read_faults }
        ensures write_faults { self.new.write_faults ≡ self.old.write_faults }
    {
        let Some(file) = &mut self.file else {
            return Err(ErrorKind::NotConnected.into());
        };
        for _ in 0..u64::MAX {
            match file.write(bytes) {
                Ok(count) if count > 0 || bytes.is_empty() => return Ok(count),
                Ok(_) => return Err(ErrorKind::WriteZero.into()),
                Err(error) if comes_again(&error) => {}
                Err(error) => return Err(error),
            }
            if self.is_node && is_abandoned(file.as_raw_fd(), self.link.get(), POLLOUT) {
                return Err(ErrorKind::BrokenPipe.into());
            }
        }
        Err(ErrorKind::TimedOut.into())
    }
}

fn open_file<R: fs::Files>(rt: &R, path: &str, side: Side) -> io::Result<R::File> {
    match side {
        Side::Read => fs::open(rt, path),
        Side::Write => OpenOptions::new().write(true).open(rt, path),
    }
}

fn is_device<F: OpenFile>(file: &F) -> bool {
    match file.metadata() {
        Ok(metadata) => metadata.file_type().is_char_device(),
        Err(_) => false,
    }
}

// Keeps other readers away from a node, and has it give and take at once or not at all.
fn hold(node: &File, side: Side) -> io::Result<()> {
    if side == Side::Read
        && let Err(TryLockError::WouldBlock) = node.try_lock()
    {
        return Err(io::Error::from_raw_os_error(EBUSY));
    }
    // std sets this for sockets alone; it is the same for whatever a descriptor leads to
    let node = UnixStream::from(node.as_fd().try_clone_to_owned()?);
    node.set_nonblocking(true)
}

// The file, and whether it is a node, which it is only where a link is open.
fn open_held<R: fs::Files<File = File>>(
    rt: &R,
    path: &str,
    side: Side,
    link: RawFd,
) -> io::Result<(File, bool)> {
    let file = open_file(rt, path, side)?;
    let is_node = link >= 0 && is_device(&file);
    if is_node {
        hold(&file, side)?;
    }
    Ok((file, is_node))
}

fn asked(fd: RawFd, events: i16) -> pollfd {
    pollfd {
        fd,
        events,
        revents: 0,
    }
}

fn is_hung_up(found: &pollfd) -> bool {
    found.revents & (POLLHUP | POLLERR | POLLNVAL) != 0
}

// Waits until a node is ready, or the program's input or the link is hung up. Whether it isn't ready.
fn is_abandoned(node: RawFd, link: RawFd, events: i16) -> bool {
    let mut all = [asked(node, events), asked(STDIN_FILENO, 0), asked(link, 0)];
    poll(&mut all, -1) > 0 && all[0].revents == 0 && (is_hung_up(&all[1]) || is_hung_up(&all[2]))
}

fn comes_again(error: &io::Error) -> bool {
    matches!(error.kind(), ErrorKind::WouldBlock | ErrorKind::Interrupted)
}

impl<R: fs::Files<File = File>> Files for StdFiles<'_, R> {
    ghost calls = { λ _. None };

    ghost read_faults = { λ s. s.read_faults };

    ghost write_faults = { λ s. s.write_faults };

    fn open(&mut self, path: &str, side: Side) -> Result<(), Failed> {
        self.file = None;
        match open_held(self.rt, path, side, self.link.get()) {
            Ok((file, is_node)) => {
                self.file = Some(file);
                self.is_node = is_node;
                Ok(())
            }
            Err(error) => {
                self.words = system_words(self.alloc, error);
                Err(self.read_faults.fail())
            }
        }
    }

    fn read(&mut self, buffer: &mut [u8]) -> Result<usize, Failed> {
        match self.read_open(buffer) {
            Ok(count) => Ok(count),
            Err(error) => {
                self.words = system_words(self.alloc, error);
                Err(self.read_faults.fail())
            }
        }
    }

    fn write(&mut self, bytes: &[u8]) -> Result<usize, Failed> {
        match self.write_open(bytes) {
            Ok(count) => Ok(count),
            Err(error) => {
                self.words = system_words(self.alloc, error);
                Err(self.write_faults.fail())
            }
        }
    }

    fn close(&mut self) {
        self.file = None;
    }
}

impl<R: fs::Files<File = File>> Complain for StdFiles<'_, R> {
    ghost words = { λ s. string_bytes s.words };

    fn words(&self) -> &str {
        self.words.as_str()
    }
}
