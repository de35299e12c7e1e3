ghost use Rattle.std.specs.Prelude.{◌≡◌, length};
ghost use Rattle.sim_serving.specs.Examples.{counting};

use crate::serve_sim;
use hub_io::{HubCall, HubEvent, HubTurn, MemHub, ServeEnd};
use kit_bytes::Octets;
use qmux_frame::Qmux;
use sim_modem::Sim;
use std::alloc::{AllocError, Global};
use std::process::Abort;
use std::test::Fail;

// Get Version Info under the numbers 7 and 8, and their answers: how many requests came before, and
// the request itself.
const FIRST: [u8; 12] = [
    0x01, 0x0b, 0x00, 0x00, 0x00, 0x00, 0x00, 0x07, 0x21, 0x00, 0x00, 0x00,
];

const SECOND: [u8; 12] = [
    0x01, 0x0b, 0x00, 0x00, 0x00, 0x00, 0x00, 0x08, 0x21, 0x00, 0x00, 0x00,
];

const FIRST_ANSWER: [u8; 13] = [
    0, 0x01, 0x0b, 0x00, 0x00, 0x00, 0x00, 0x00, 0x07, 0x21, 0x00, 0x00, 0x00,
];

const SECOND_ANSWER: [u8; 13] = [
    1, 0x01, 0x0b, 0x00, 0x00, 0x00, 0x00, 0x00, 0x08, 0x21, 0x00, 0x00, 0x00,
];

const FOURTH_ANSWER: [u8; 13] = [
    3, 0x01, 0x0b, 0x00, 0x00, 0x00, 0x00, 0x00, 0x08, 0x21, 0x00, 0x00, 0x00,
];

// A request, and behind it a byte that begins none.
const SPOILT: [u8; 13] = [
    0x01, 0x0b, 0x00, 0x00, 0x00, 0x00, 0x00, 0x07, 0x21, 0x00, 0x00, 0x00, 0xff,
];

/// A modem that answers how many requests came before, and the request itself.
#[derive(Drop)]
struct Counting {
    alloc: Global,
    asked: u8,
}

impl Sim for Counting {
    type Framing = Qmux;

    ghost keeps = { λ answers past sim. (answers ≡ counting) × (sim.asked ≡ length past) };

    fn ask(&mut self, message: &[u8]) -> Result<Octets, AllocError> {
        let before = self.asked;
        self.asked = before.checked_add(1).ok_or(AllocError)?;
        let mut answer = Octets::from_slice(self.alloc, &[before])?;
        answer.extend_from_slice(message)?;
        Ok(answer)
    }
}

/// The clients 1 and 2 ask in turn, and then 1 sends what is no request.
fn turns(alloc: Global) -> Result<Vec<HubTurn>, AllocError> {
    let mut turns = Vec::new(alloc);
    turns.push(HubTurn::Tells(HubEvent::Joined(1)))?;
    turns.push(HubTurn::Tells(HubEvent::Joined(2)))?;
    turns.push(HubTurn::Gives(1, Vec::from_slice(alloc, &FIRST)?))?;
    turns.push(HubTurn::Gives(2, Vec::from_slice(alloc, &SECOND)?))?;
    turns.push(HubTurn::Gives(1, Vec::from_slice(alloc, &SPOILT)?))?;
    turns.push(HubTurn::Gives(2, Vec::from_slice(alloc, &SECOND)?))?;
    Ok(turns)
}

/// The hub was asked for this, in this order.
fn assert_asked<R: Abort>(rt: &R, hub: &MemHub, calls: &[(HubCall, &[u8])]) {
    for (at, (call, bytes)) in calls.iter().enumerate() {
        assert_eq!(rt; hub.log().at(at), Some((*call, *bytes)), "call {at}");
    }
    assert_eq!(rt; hub.log().len(), Some(calls.len()));
}

#[test]
fn each_client_gets_its_own_answers(rt: HostRuntime) -> Result<(), Fail> {
    let calls: [(HubCall, &[u8]); 11] = [
        (HubCall::Told(HubEvent::Joined(1)), &[]),
        (HubCall::Told(HubEvent::Joined(2)), &[]),
        (HubCall::Told(HubEvent::Piece(1, 12)), &FIRST),
        (HubCall::Sent { conn: 1, taken: 13 }, &FIRST_ANSWER),
        (HubCall::Told(HubEvent::Piece(2, 12)), &SECOND),
        (HubCall::Sent { conn: 2, taken: 13 }, &SECOND_ANSWER),
        (HubCall::Told(HubEvent::Piece(1, 13)), &SPOILT),
        (HubCall::HungUp { conn: 1 }, &[]),
        (HubCall::Told(HubEvent::Piece(2, 12)), &SECOND),
        (HubCall::Sent { conn: 2, taken: 13 }, &FOURTH_ANSWER),
        (HubCall::Told(HubEvent::Stop), &[]),
    ];
    let alloc = rt.alloc();
    let mut hub = MemHub::new(alloc, turns(alloc)?, Vec::new(alloc), 100, 1_000)?;
    let modem = Counting { alloc, asked: 0 };
    assert_eq!(rt; serve_sim(alloc, &mut hub, modem, 100), ServeEnd::Stopped);
    assert_asked(&rt, &hub, &calls);
    Ok(())
}
