use crate::steps::{accept, connect, path, pump, reads, writes};
use hub_io::{Hub, HubEvent, NEXT_ROOM};
use kit_io::Failed;
use link_io::Target;
use mio_hub::MioHub;
use std::fs::{self, Files};
use std::net::Net;
use std::os::unix::net::{UnixListener, UnixStream};
use std::process::Abort;

// What is done with a hub stands in functions over any hub: a check takes far longer over a real one.

fn opens<H: Hub>(hub: &mut H, path: &str, modem: &Target) -> bool {
    hub.open(path, Some(modem)).is_ok()
}

fn pairs<H: Hub>(hub: &mut H) -> bool {
    hub.pair().is_ok()
}

fn reopens<H: Hub>(hub: &mut H) -> bool {
    hub.reopen_modem().is_ok()
}

/// The next answer that isn't of the time, and the first bytes of its buffer.
fn next<H: Hub>(hub: &mut H) -> (Result<HubEvent, Failed>, [u8; 3]) {
    let mut buffer = [0; NEXT_ROOM];
    for _ in 0..1_000 {
        let event = hub.next(&mut buffer);
        if !matches!(event, Ok(HubEvent::Now(_))) {
            return (event, [buffer[0], buffer[1], buffer[2]]);
        }
    }
    (Err(Failed), [0; 3])
}

/// The hub waits, and so writes what it gathered for the modem.
fn wait<H: Hub>(hub: &mut H) {
    let mut buffer = [0; NEXT_ROOM];
    for _ in 0..3 {
        let _ = hub.next(&mut buffer);
    }
}

/// A client comes, says something and is answered.
fn serves<H: Hub>(hub: &mut H, client: &mut UnixStream) -> bool {
    writes(client, &[1, 2, 3])
        && next(hub) == (Ok(HubEvent::Joined(1)), [0; 3])
        && next(hub) == (Ok(HubEvent::Piece(1, 3)), [1, 2, 3])
        && hub.send(1, &[7, 8, 9]) == Ok(3)
        && reads(client, [7, 8, 9])
}

/// It goes.
fn leaves<H: Hub>(hub: &mut H) -> bool {
    next(hub).0 == Ok(HubEvent::Left(1)) && hub.send(1, &[9]).is_err()
}

/// The modem says something over this stream, and is sent something.
fn hears<H: Hub>(hub: &mut H, modem: &mut UnixStream) -> bool {
    let heard = writes(modem, &[4, 5, 6])
        && next(hub) == (Ok(HubEvent::ModemPiece(3)), [4, 5, 6])
        && hub.send_modem(&[1, 2, 3]) == Ok(3);
    wait(hub);
    heard
}

/// The modem is lost.
fn loses<H: Hub>(hub: &mut H) -> bool {
    next(hub).0 == Ok(HubEvent::ModemGone) && hub.send_modem(&[4]).is_err()
}

/// A hub whose client and modem come and go.
fn meets<H: Hub, R: Abort + Net + Files>(rt: &R, hub: &mut H, target: &Target) {
    let listener = UnixListener::bind(rt, "modem.sock").expect(rt, "a free path");
    assert!(rt; opens(hub, "hub.sock", target));
    let mut client = connect(rt, "hub.sock");
    assert!(rt; serves(hub, &mut client));
    drop(client);
    assert!(rt; leaves(hub));
    let mut modem = accept(rt, &listener);
    assert!(rt; hears(hub, &mut modem) && reads(&mut modem, [1, 2, 3]));
    drop(modem);
    assert!(rt; loses(hub));
    assert!(rt; reopens(hub));
    drop(listener);
}

#[test]
fn a_client_and_a_modem_come_and_go(rt: HostRuntime) {
    let target = Target::Socket(path(&rt, rt.alloc(), "modem.sock"));
    let mut hub = MioHub::new(&rt, rt.alloc()).expect(&rt, "memory");
    meets(&rt, &mut hub, &target);
    drop(hub);
    drop(target);
    fs::remove_file(&rt, "modem.sock").expect(&rt, "the socket's file");
}

/// A hub whose modem is behind two pumps.
fn crosses<H: Hub, R: Abort + Net>(rt: &R, hub: &mut H, target: &Target) {
    assert!(rt; opens(hub, "bridged_hub.sock", target));
    let mut input = pump(rt, "hub_bridge.sock", b'r');
    let mut output = pump(rt, "hub_bridge.sock", b'w');
    assert!(rt; pairs(hub));
    assert!(rt; hears(hub, &mut input) && reads(&mut output, [1, 2, 3]));
    drop(output);
    assert!(rt; loses(hub));
    drop(input);
    // no new pumps come
    assert!(rt; !reopens(hub));
}

#[test]
fn a_hub_reaches_its_modem_over_a_bridge(rt: HostRuntime) {
    let target = Target::Bridge(path(&rt, rt.alloc(), "hub_bridge.sock"));
    let mut hub = MioHub::new(&rt, rt.alloc()).expect(&rt, "memory");
    crosses(&rt, &mut hub, &target);
    drop(hub);
    drop(target);
}
