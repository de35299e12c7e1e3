use crate::steps::reads;
use kit_io::{StdSink, WriteFault, write_all_to};
use std::os::unix::net::UnixStream;

#[test]
fn a_stream_is_a_sink(rt: HostRuntime) {
    let (near, mut far) = UnixStream::pair(&rt).expect(&rt, "two sockets");
    let mut sink = StdSink::new(near);
    assert!(rt; write_all_to(&mut sink, b"abc").is_ok());
    assert!(rt; reads(&mut far, *b"abc"));
    // nobody reads any more
    drop(far);
    assert!(rt; write_all_to(&mut sink, b"abc") == Err(WriteFault));
    drop(sink);
}
