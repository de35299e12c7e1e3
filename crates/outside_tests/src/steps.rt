use kit_bytes::Text;
use std::alloc::Global;
use std::io::{Read, Write};
use std::net::Net;
use std::os::unix::net::{UnixListener, UnixStream};
use std::process::Abort;

// What the tests of more than one module do. A check takes time for each value that a function owns
// at each of its exits: so a test's steps stand in small functions that borrow, and end in no other way.

/// The path of a socket.
pub fn path<R: Abort>(rt: &R, alloc: Global, path: &str) -> Text {
    Text::from_str(alloc, path).expect(rt, "memory")
}

/// A stream to whoever listens at this path.
pub fn connect<R: Abort + Net>(rt: &R, path: &str) -> UnixStream {
    UnixStream::connect(rt, path).expect(rt, "somebody listens")
}

/// The stream to who has connected first.
pub fn accept<R: Abort>(rt: &R, listener: &UnixListener) -> UnixStream {
    let (stream, _) = listener.accept().expect(rt, "somebody connects");
    stream
}

/// A stream to a bridge that begins with this letter.
pub fn pump<R: Abort + Net>(rt: &R, path: &str, letter: u8) -> UnixStream {
    let mut stream = connect(rt, path);
    assert!(rt; writes(&mut stream, &[letter]));
    stream
}

/// These bytes go into the stream.
pub fn writes(stream: &mut UnixStream, bytes: &[u8]) -> bool {
    stream.write_all(bytes).is_ok()
}

/// These are the next bytes that come over the stream.
pub fn reads(stream: &mut UnixStream, wanted: [u8; 3]) -> bool {
    let mut got = [0; 3];
    stream.read_exact(&mut got).is_ok() && got == wanted
}
