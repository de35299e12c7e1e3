ghost use Rattle.std.specs.Prelude.{◌≡◌, ◌+◌, ◌<◌, ◌≤◌, [], ◌∷◌, None, is_ok, length, map, string_bytes, vec_len, IfOk, OnErr, OnOk};
ghost use Rattle.kit_io.specs.Causes.{HasCause};
ghost use Rattle.kit_io.specs.Growth.{Grows};
ghost use Rattle.child_io.specs.Calls.{Stopped, end_call, start_call};

use crate::{KIDS_LIMIT, Spawner};
use kit_io::{Failed, Faults};
use std::alloc::{AllocError, Global};
use std::io::{self, ErrorKind, Read};
use std::os::fd::AsFd;
use std::os::unix::net::UnixStream;
use std::process::{Child, Command, OpenProcess, Processes, Stdio};

/// The processes of the system. It tells no content, and holds each child that it started until it
/// has seen its end.
///
/// A child has nothing to read: its input is a pipe to which nobody writes, and which is hung up once
/// the child was stopped or this program is gone, however it ended. Its output goes nowhere, and its
/// errors go where this program's do, but for those of a proxy, which are kept until they are asked
/// for. It is named by its process number.
#[derive(Drop)]
pub struct StdSpawner<'a, R: Processes> {
    rt: &'a R,
    alloc: Global,
    program: String,
    children: Vec<Child<R::Started>>,
    /// What the proxy says of its faults that was started last.
    complaints: Option<<R::Started as OpenProcess>::Stderr>,
    faults: Faults,
}

impl<'a, R: Processes> StdSpawner<'a, R> {
    /// A spawner that starts the program at this path.
    pub fn new(rt: &'a R, alloc: Global, program: String) -> Result<Self, AllocError>
        ensures program { IfOk result (λ spawner. string_bytes spawner.program ≡ string_bytes program) }
        ensures none { IfOk result (λ spawner. vec_len spawner.children ≡ 0) }
        ensures faults { IfOk result (λ spawner. spawner.faults ≡ 0) }
    {
        Ok(StdSpawner {
            rt,
            alloc,
            program,
            children: Vec::with_capacity(alloc, KIDS_LIMIT)?,
            complaints: None,
            faults: Faults::none(),
        })
    }

    fn spawn(&mut self, words: &[String]) -> io::Result<u32>
        ensures faults { self.new.faults ≡ self.old.faults }
        ensures held { OnOk result (vec_len self.new.children ≡ vec_len self.old.children + 1) }
        ensures failed { OnErr result (vec_len self.new.children ≡ vec_len self.old.children) }
    {
        self.children.try_reserve(1)?;
        let is_kept = is_proxy(words);
        let mut child = Command::new(self.alloc, self.program.as_str())?
            .args(words)?
            .stdin(Stdio::piped())
            .stdout(Stdio::null())
            .stderr(if is_kept {
                Stdio::piped()
            } else {
                Stdio::inherit()
            })
            .spawn(self.rt)?;
        if is_kept {
            self.complaints = child.stderr.take();
        }
        let number = child.id();
        self.children.push_reserved(child);
        Ok(number)
    }
}

impl<R: Processes> StdSpawner<'_, R>
where
    <R::Started as OpenProcess>::Stderr: AsFd,
{
    /// Puts what the proxy said of its faults that was started last at the front of the buffer, as
    /// far as it is there, and gives how many bytes that are.
    pub fn take_complaints(&mut self, buffer: &mut [u8]) -> usize
        ensures within { result ≤ length buffer.old }
        ensures len { length buffer.new ≡ length buffer.old }
    {
        match &mut self.complaints {
            Some(complaints) => read_at_once(complaints, buffer).unwrap_or(0),
            None => 0,
        }
    }
}

// Whether these words start a proxy.
fn is_proxy(words: &[String]) -> bool {
    match words.first() {
        Some(name) => name.as_str() == "qmi-proxy" || name.as_str() == "mbim-proxy",
        None => false,
    }
}

// Reads what is there, which others may still be about to write.
fn read_at_once<P: Read + AsFd>(pipe: &mut P, buffer: &mut [u8]) -> io::Result<usize>
    ensures within { IfOk result (λ count. count ≤ length buffer.old) }
    ensures len { length buffer.new ≡ length buffer.old }
{
    // std sets this for sockets alone; it is the same for whatever a descriptor leads to
    UnixStream::from(pipe.as_fd().try_clone_to_owned()?).set_nonblocking(true)?;
    pipe.read(buffer)
}

// Where the child stands.
fn place_of<P: OpenProcess>(children: &[Child<P>], child: u32) -> io::Result<usize>
    ensures { IfOk result (λ place. place < length children.now) }
{
    match children.iter().position(|other| other.id() == child) {
        Some(place) => Ok(place),
        None => Err(io::Error::from(ErrorKind::NotFound)),
    }
}

// Waits for a child's end, and forgets it.
fn wait<P: OpenProcess + Drop>(children: &mut Vec<Child<P>>, child: u32) -> io::Result<i32>
    ensures seen { OnOk result (vec_len children.new + 1 ≡ vec_len children.old) }
    ensures failed { OnErr result (vec_len children.new ≡ vec_len children.old) }
{
    let place = place_of(children, child)?;
    let status = children[place].wait()?;
    children.swap_remove(place);
    Ok(status.code().unwrap_or(-1))
}

fn kill<P: OpenProcess>(children: &mut [Child<P>], child: u32) -> io::Result<()>
    ensures { length children.new ≡ length children.old }
{
    let place = place_of(children, child)?;
    children[place].kill()
}

impl<R: Processes> Spawner for StdSpawner<'_, R> {
    ghost calls = { λ _. None };

    ghost faults = { λ s. s.faults };

    fn start(&mut self, words: &[String]) -> Result<u32, Failed>
        ensures calls { Grows None (start_call (map string_bytes words.now) result ∷ []) None }
        ensures cause { HasCause self.old.faults self.new.faults result }
        ensures held { OnOk result (vec_len self.new.children ≡ vec_len self.old.children + 1) }
        ensures failed { OnErr result (vec_len self.new.children ≡ vec_len self.old.children) }
    {
        match self.spawn(words) {
            Ok(child) => Ok(child),
            Err(_) => Err(self.faults.fail()),
        }
    }

    fn ended(&mut self, child: u32) -> Result<i32, Failed>
        ensures calls { Grows None (end_call child result ∷ []) None }
        ensures cause { HasCause self.old.faults self.new.faults result }
        ensures seen { OnOk result (vec_len self.new.children + 1 ≡ vec_len self.old.children) }
        ensures failed { OnErr result (vec_len self.new.children ≡ vec_len self.old.children) }
    {
        match wait(&mut self.children, child) {
            Ok(status) => Ok(status),
            Err(_) => Err(self.faults.fail()),
        }
    }

    fn stop(&mut self, child: u32, _after: u64) -> Result<(), Failed>
        ensures calls { Grows None (Stopped child (is_ok result) _after ∷ []) None }
        ensures cause { HasCause self.old.faults self.new.faults result }
        ensures seen { OnOk result (vec_len self.new.children + 1 ≡ vec_len self.old.children) }
        ensures failed { OnErr result (vec_len self.new.children ≡ vec_len self.old.children) }
    {
        if kill(&mut self.children, child).is_ok() && wait(&mut self.children, child).is_ok() {
            return Ok(());
        }
        Err(self.faults.fail())
    }
}
