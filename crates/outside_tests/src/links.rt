use crate::steps::{accept, connect, path, pump, reads, writes};
use kit_io::Failed;
use link_io::{Link, TAKE_ROOM, Taken, Target};
use std::cell::Cell;
use std::fs::{self, Files};
use std::net::Net;
use std::os::unix::net::{UnixListener, UnixStream};
use std::process::Abort;
use unix_link::UnixLink;

// What is done with a link stands in functions over any link: a check takes far longer over a real one.

fn opens<L: Link>(link: &mut L, target: &Target) -> bool {
    link.open(target).is_ok()
}

fn pairs<L: Link>(link: &mut L) -> bool {
    link.pair().is_ok()
}

/// The next take answers this, and these are the first bytes of its buffer.
fn takes<L: Link>(link: &mut L, wanted: Result<Taken, Failed>, bytes: [u8; 2]) -> bool {
    let mut buffer = [0; TAKE_ROOM];
    link.take(&mut buffer) == wanted && buffer.starts_with(&bytes)
}

/// Bytes come over one stream, and go over the other.
fn exchanges<L: Link>(link: &mut L, from: &mut UnixStream) -> bool {
    takes(link, Ok(Taken::Quiet), [0, 0])
        && writes(from, &[7, 8])
        && takes(link, Ok(Taken::Bytes(2)), [7, 8])
        && link.send(&[1, 2, 3]).is_ok()
}

/// Nothing comes any more, and a link that was closed sends nothing.
fn ends<L: Link>(link: &mut L) -> bool {
    let ended = takes(link, Ok(Taken::End), [0, 0]) && takes(link, Ok(Taken::End), [0, 0]);
    link.close();
    ended && link.send(&[1]).is_err()
}

/// A link to a modem that comes and goes.
fn reaches<L: Link, R: Abort + Net + Files>(rt: &R, link: &mut L, target: &Target) {
    // nobody listens yet
    assert!(rt; !opens(link, target));
    let listener = UnixListener::bind(rt, "link.sock").expect(rt, "a free path");
    assert!(rt; opens(link, target));
    let mut modem = accept(rt, &listener);
    assert!(rt; exchanges(link, &mut modem) && reads(&mut modem, [1, 2, 3]));
    drop(modem);
    drop(listener);
    assert!(rt; ends(link));
}

#[test]
fn bytes_go_both_ways_over_a_socket(rt: HostRuntime) {
    let target = Target::Socket(path(&rt, rt.alloc(), "link.sock"));
    let socket = Cell::new(-1);
    let mut link = UnixLink::new(&rt, rt.alloc(), &socket);
    reaches(&rt, &mut link, &target);
    drop(link);
    drop(target);
    fs::remove_file(&rt, "link.sock").expect(&rt, "the socket's file");
}

/// A link to two pumps.
fn crosses<L: Link, R: Abort + Net>(rt: &R, link: &mut L, target: &Target) {
    assert!(rt; opens(link, target));
    // somebody who says nothing comes first
    drop(connect(rt, "bridge.sock"));
    let mut output = pump(rt, "bridge.sock", b'w');
    let mut input = pump(rt, "bridge.sock", b'r');
    assert!(rt; pairs(link));
    assert!(rt; exchanges(link, &mut input) && reads(&mut output, [1, 2, 3]));
    drop(input);
    drop(output);
    assert!(rt; ends(link));
}

#[test]
fn a_link_crosses_a_bridge(rt: HostRuntime) {
    let target = Target::Bridge(path(&rt, rt.alloc(), "bridge.sock"));
    let socket = Cell::new(-1);
    let mut link = UnixLink::new(&rt, rt.alloc(), &socket);
    crosses(&rt, &mut link, &target);
    drop(link);
    drop(target);
    assert!(rt; !fs::exists(&rt, "bridge.sock").expect(&rt, "a folder"));
}
