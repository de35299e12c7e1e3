ghost use Rattle.std.specs.Prelude.{◌≡◌, ◌≤◌, ◌==◌, length, bytes_eq};
ghost use Rattle.mbim_frame.specs.Bodies.{uuid_of};
ghost use Rattle.mbim_frame.specs.Fragment.{body_of};
ghost use Rattle.mbim_frame.specs.Head.{is_kind};
ghost use Rattle.mbim_frame.specs.declared.kind.MessageKind.TheVariants as kinds;
ghost use Rattle.mbim_services.specs.Table.{proxy_control};
ghost use Rattle.rig_trace.specs.Mbim.{key_of};

use crate::Reading;
use crate::slices::{behind, front};
use kit_bytes::Octets;
use mbim_frame::status::SUCCESS;
use mbim_frame::{MHead, MessageKind, open_done, set_number};
use mbim_services::Service;
use rig_trace::Key;
use std::alloc::{AllocError, Global};

/// How the messages of MBIM are read.
#[derive(Clone, Copy, PartialEq, Eq)]
pub struct MbimReading;

impl Reading for MbimReading {
    ghost use Rattle.rig_trace.specs.Mbim.{mbim_reading};

    ghost reading = { mbim_reading };

    fn time_limit() -> u64 {
        30_000
    }

    fn of_request(message: &[u8]) -> Key {
        key_of(message)
    }

    fn of_answer(message: &[u8]) -> Key {
        key_of(message)
    }

    fn is_own(message: &[u8]) -> bool {
        is_open(message)
    }

    fn opens(message: &[u8]) -> bool {
        is_open(message) || is_for_proxy(message)
    }

    fn at_once(alloc: Global, message: &[u8]) -> Result<Option<Octets>, AllocError> {
        if !is_open(message) {
            return Ok(None);
        }
        Ok(Some(Octets::from_slice(alloc, &open_done(0, SUCCESS))?))
    }

    fn with_number(alloc: Global, number: u32, message: &[u8]) -> Result<Octets, AllocError> {
        let mut copy = Vec::from_slice(alloc, message)?;
        set_number(&mut copy, number);
        Ok(Octets::from(copy))
    }
}

// A request and its answer have their number in common, and their kind but for its highest bit.
fn key_of(message: &[u8]) -> Key
    requires { 12 ≤ length message.now }
    ensures { result ≡ key_of message.now }
{
    let head = MHead::read(message);
    Key {
        kind: head.kind % 0x8000_0000,
        cid: 0,
        number: head.number,
    }
}

fn is_open(message: &[u8]) -> bool
    requires { 12 ≤ length message.now }
    ensures { result ≡ is_kind kinds.Open message.now }
{
    MHead::read(message).kind == MessageKind::Open.number()
}

// Whether it is a command to the proxy itself.
fn is_for_proxy(message: &[u8]) -> bool
    ensures { result ≡ bytes_eq (uuid_of (body_of message.now)) proxy_control }
{
    let own = Service::ProxyControl.uuid();
    front(behind(message, 20), 16) == own.as_bytes().as_slice()
}
