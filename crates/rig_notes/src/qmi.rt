ghost use Rattle.std.specs.Prelude.{◌≡◌, ◌≤◌, length, IfOk};
ghost use Rattle.rig_trace.specs.Qmi.{key_of};

use crate::Reading;
use kit_bytes::Octets;
use qmux_frame::control::PROXY_OPEN;
use qmux_frame::{Head, set_number};
use rig_trace::Key;
use std::alloc::{AllocError, Global};

/// How the messages of QMI are read.
#[derive(Clone, Copy, PartialEq, Eq)]
pub struct QmiReading;

impl Reading for QmiReading {
    ghost use Rattle.rig_trace.specs.Qmi.{qmi_reading};

    ghost reading = { qmi_reading };

    fn time_limit() -> u64 {
        30_000
    }

    fn of_request(message: &[u8]) -> Key {
        key_of(message)
    }

    fn of_answer(message: &[u8]) -> Key {
        key_of(message)
    }

    fn is_own(_message: &[u8]) -> bool {
        false
    }

    fn opens(message: &[u8]) -> bool {
        Head::read(message).is_command(PROXY_OPEN)
    }

    fn at_once(_alloc: Global, _message: &[u8]) -> Result<Option<Octets>, AllocError> {
        Ok(None)
    }

    fn with_number(alloc: Global, number: u32, message: &[u8]) -> Result<Octets, AllocError> {
        let number = number_for(message[4], number)?;
        let mut copy = Vec::from_slice(alloc, message)?;
        set_number(&mut copy, number);
        Ok(Octets::from(copy))
    }
}

// A request and its answer have their service, client id and number in common.
fn key_of(message: &[u8]) -> Key
    requires { 12 ≤ length message.now }
    ensures { result ≡ key_of message.now }
{
    let head = Head::read(message);
    Key {
        kind: u32::from(head.service),
        cid: head.cid,
        number: u32::from(head.number),
    }
}

// A number as this service has numbers: service 0 has those of one byte, every other of two.
fn number_for(service: u8, number: u32) -> Result<u16, AllocError>
    ensures same { IfOk result (λ fitting. fitting ≡ number) }
    ensures fits { IfOk result (λ fitting. service ≡ 0 → fitting ≤ 255) }
{
    let greatest = if service == 0 { 255 } else { 65_535 };
    if number > greatest {
        return Err(AllocError);
    }
    Ok(number as u16)
}
