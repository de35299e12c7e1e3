//! Where two pumps meet whoever wants to reach a device node.
use crate::socket_file::Listening;
use libc::net::{POLLIN, poll};
use libc::types::pollfd;
use std::alloc::Global;
use std::fs::{File, Files};
use std::io::{self, ErrorKind, Read};
use std::net::Net;
use std::os::fd::AsRawFd;
use std::os::unix::net::UnixStream;
use std::rt::Clock;
use std::time::Duration;

/// How many milliseconds a letter is waited for at one time.
const TICK: u64 = 100;

/// For how many ticks both pumps are waited for.
const TICKS: u64 = 300;

/// For how many milliseconds that is.
const PATIENCE: u64 = 30_000;

/// How many of them are left at most once a pump was lost.
const PATIENCE_BEHIND_A_LOSS: u64 = 2_000;

/// The streams of a node's pumps.
#[derive(Drop)]
pub struct Pumps {
    /// What the node gives comes in here.
    pub read: UnixStream,
    /// What goes out here is written to the node.
    pub write: UnixStream,
}

/// A socket of its owner alone, to which the pumps of a node connect. Its file goes with it.
#[derive(Drop)]
pub struct Bridge<'a, R: Files> {
    listening: Listening<'a, R>,
}

impl<'a, R: Net + Files<File = File> + Clock> Bridge<'a, R> {
    /// Listens at the path. It fails where something stands there, unless that is a socket to which
    /// nobody listens.
    pub fn listen(rt: &'a R, alloc: Global, path: &str) -> io::Result<Self> {
        Ok(Bridge {
            listening: Listening::start(rt, alloc, path)?,
        })
    }

    /// Waits for a stream that begins with `r` and one that begins with `w`, at most 300 ticks of
    /// 100 ms. Any other stream is closed, and once one ended without a letter, 20 ticks are left.
    pub fn pair(&self) -> io::Result<Pumps> {
        let mut left = PATIENCE;
        let mut read = None;
        let mut write = None;
        for _ in 0..PATIENCE {
            if left == 0 {
                break;
            }
            match self.meet(&mut left)? {
                Some((b'r', stream)) => read = Some(stream),
                Some((b'w', stream)) => write = Some(stream),
                Some(_) | None => {}
            }
            match (read.take(), write.take()) {
                (Some(read), Some(write)) => return Ok(Pumps { read, write }),
                (some_read, some_write) => {
                    read = some_read;
                    write = some_write;
                }
            }
        }
        Err(ErrorKind::TimedOut.into())
    }

    // Who comes next, with the first byte of the stream, if somebody comes within a millisecond.
    fn meet(&self, left: &mut u64) -> io::Result<Option<(u8, UnixStream)>> {
        match self.listening.accept() {
            Ok(mut stream) => {
                let letter = first_byte(&mut stream, left)?;
                Ok(letter.map(|letter| (letter, stream)))
            }
            Err(error) if error.kind() == ErrorKind::WouldBlock => {
                self.wait();
                *left = left.saturating_sub(1);
                Ok(None)
            }
            Err(error) => Err(error),
        }
    }

    // Waits until somebody comes, at most a millisecond.
    fn wait(&self) {
        let listener = pollfd {
            fd: self.listening.as_raw_fd(),
            events: POLLIN,
            revents: 0,
        };
        let _ = poll(&mut [listener], 1);
    }
}

// The first byte of a stream, if it comes in time.
fn first_byte(stream: &mut UnixStream, left: &mut u64) -> io::Result<Option<u8>> {
    stream.set_nonblocking(false)?;
    stream.set_read_timeout(Some(Duration::from_millis(TICK)))?;
    let mut letter = [0];
    for _ in 0..TICKS {
        if *left == 0 {
            break;
        }
        match stream.read(&mut letter) {
            Ok(0) => {
                *left = PATIENCE_BEHIND_A_LOSS.min(*left);
                return Ok(None);
            }
            Ok(_) => return Ok(Some(letter[0])),
            Err(_) => *left = left.saturating_sub(TICK),
        }
    }
    Ok(None)
}
