//! The file of a socket that listens: what may stand there before, how it comes about, and its end.
use libc::geteuid;
use std::alloc::{AllocError, Global};
use std::fs::{File, Files, Metadata, Permissions};
use std::io::ErrorKind;
use std::net::Net;
use std::os::fd::{AsRawFd, RawFd};
use std::os::unix::fs::{FileTypeExt, MetadataExt, PermissionsExt};
use std::os::unix::net::{UnixListener, UnixStream};
use std::rt::Clock;
use std::time::Duration;
use std::{fs, io, thread};

/// How often the lock on the folder in which a socket is made is tried at most, every 10 ms.
const ATTEMPTS: u8 = 100;

/// Which file stands at a path: its file system, and its number there.
#[derive(Clone, Copy, PartialEq, Eq)]
pub struct FileId {
    device: u64,
    number: u64,
}

impl FileId {
    fn of(found: &Metadata) -> Self {
        FileId {
            device: found.dev(),
            number: found.ino(),
        }
    }

    /// Of the file at the path itself, be it a link.
    fn at<R: Files>(rt: &R, path: &str) -> io::Result<Self> {
        Ok(FileId::of(&fs::symlink_metadata(rt, path)?))
    }

    /// Of the file to which the path leads.
    fn behind<R: Files>(rt: &R, path: &str) -> io::Result<Self> {
        Ok(FileId::of(&fs::metadata(rt, path)?))
    }
}

/// Whether two paths are one, or lead to one file.
pub fn are_same<R: Files>(rt: &R, path: &str, other: &str) -> bool {
    if path == other {
        return true;
    }
    match (FileId::behind(rt, path), FileId::behind(rt, other)) {
        (Ok(file), Ok(other)) => file == other,
        _ => false,
    }
}

/// The socket at the path to which nobody listens, if there is one. Anything else that stands there
/// is a fault.
pub fn left_over<R: Net + Files>(rt: &R, path: &str) -> io::Result<Option<FileId>> {
    let found = match fs::symlink_metadata(rt, path) {
        Ok(found) => found,
        Err(error) if error.kind() == ErrorKind::NotFound => return Ok(None),
        Err(error) => return Err(error),
    };
    if found.file_type().is_socket() && is_deserted(rt, path) {
        Ok(Some(FileId::of(&found)))
    } else {
        Err(ErrorKind::AlreadyExists.into())
    }
}

// Whether nobody listens to the socket at the path.
fn is_deserted<R: Net>(rt: &R, path: &str) -> bool {
    match UnixStream::connect(rt, path) {
        Ok(_) => false,
        Err(error) => error.kind() == ErrorKind::ConnectionRefused,
    }
}

/// A socket that listens at a path. Its file goes with it, where no other has taken its place.
pub struct Listening<'a, R: Files> {
    rt: &'a R,
    path: String,
    file: FileId,
    listener: UnixListener,
}

impl<'a, R: Net + Files<File = File> + Clock> Listening<'a, R> {
    /// Has a socket of its owner alone stand at the path, in place of one that was left. It is made
    /// elsewhere, so that it listens and has its rights before anybody finds it.
    pub fn start(rt: &'a R, alloc: Global, path: &str) -> io::Result<Self> {
        let text = String::from_str(alloc, path)?;
        let folder = OwnFolder::beside(rt, alloc, path)?;
        let made = folder.socket.as_str();
        let listener = UnixListener::bind(rt, made)?;
        listener.set_nonblocking(true)?;
        fs::set_permissions(rt, made, Permissions::from_mode(0o600))?;
        let file = FileId::at(rt, made)?;
        if let Some(left) = left_over(rt, path)? {
            remove(rt, path, left);
        }
        // unlike a renaming, this replaces nothing that came meanwhile
        fs::hard_link(rt, made, path)?;
        Ok(Listening {
            rt,
            path: text,
            file,
            listener,
        })
    }

    /// The stream of whoever waits first, or `WouldBlock` where nobody does.
    pub fn accept(&self) -> io::Result<UnixStream> {
        let (stream, _) = self.listener.accept()?;
        Ok(stream)
    }
}

impl<R: Files> AsRawFd for Listening<'_, R> {
    fn as_raw_fd(&self) -> RawFd {
        self.listener.as_raw_fd()
    }
}

impl<R: Files> Drop for Listening<'_, R> {
    fn drop(self) {
        let Listening {
            rt,
            path,
            file,
            listener,
        } = self;
        remove(rt, path.as_str(), file);
        // behind the removal: no other file has this number as long as the socket is open
        drop(listener);
        drop(path);
    }
}

// Removes a file, where it still stands at the path.
fn remove<R: Files>(rt: &R, path: &str, file: FileId) {
    if let Ok(found) = FileId::at(rt, path)
        && found == file
    {
        let _ = fs::remove_file(rt, path);
    }
}

/// A folder of its owner alone, where a socket is made. Both names go when it is dropped.
///
/// It is locked as long as it is used, so of openings at one path one goes on at a time. One that
/// isn't locked was left by a program that was killed, and is taken by the next.
struct OwnFolder<'a, R: Files> {
    rt: &'a R,
    name: String,
    socket: String,
    lock: File,
}

impl<'a, R: Files<File = File> + Clock> OwnFolder<'a, R> {
    /// The folder whose name is the path and `.0`. It is waited for where another has it, for a second.
    fn beside(rt: &'a R, alloc: Global, path: &str) -> io::Result<Self> {
        let name = joined(alloc, path, ".0")?;
        let socket = joined(alloc, name.as_str(), "/s")?;
        for _ in 0..ATTEMPTS {
            if let Some(lock) = hold(rt, name.as_str())? {
                let _ = fs::remove_file(rt, socket.as_str());
                return Ok(OwnFolder {
                    rt,
                    name,
                    socket,
                    lock,
                });
            }
            thread::sleep(rt, Duration::from_millis(10));
        }
        Err(ErrorKind::AlreadyExists.into())
    }
}

// The lock on the folder of this name, which is made where nothing stands there. None is given where
// another has it, or where it went meanwhile.
fn hold<R: Files<File = File>>(rt: &R, name: &str) -> io::Result<Option<File>> {
    let made = match rt.create_dir_with_mode(name, 0o700) {
        Ok(()) => true,
        Err(error) if error.kind() == ErrorKind::AlreadyExists => false,
        Err(error) => return Err(error),
    };
    match lock(rt, name) {
        Err(error) if error.kind() == ErrorKind::NotFound => Ok(None),
        Err(error) => {
            if made {
                let _ = fs::remove_dir(rt, name);
            }
            Err(error)
        }
        held => held,
    }
}

// The same of a folder that stands there. Anything else, and another user's, is a fault.
fn lock<R: Files<File = File>>(rt: &R, name: &str) -> io::Result<Option<File>> {
    let found = fs::symlink_metadata(rt, name)?;
    if !found.is_dir() || found.uid() != geteuid() {
        return Err(ErrorKind::AlreadyExists.into());
    }
    let folder = fs::open(rt, name)?;
    if folder.try_lock().is_err() {
        return Ok(None);
    }
    let is_here = FileId::at(rt, name)? == FileId::of(&folder.metadata()?);
    Ok(is_here.then_some(folder))
}

impl<R: Files> Drop for OwnFolder<'_, R> {
    fn drop(self) {
        let OwnFolder {
            rt,
            name,
            socket,
            lock,
        } = self;
        let _ = fs::remove_file(rt, socket.as_str());
        let _ = fs::remove_dir(rt, name.as_str());
        // behind the removal: nobody else has taken the folder before
        drop(lock);
        drop(socket);
        drop(name);
    }
}

fn joined(alloc: Global, front: &str, back: &str) -> Result<String, AllocError> {
    let mut text = String::from_str(alloc, front)?;
    text.push_str(back)?;
    Ok(text)
}
