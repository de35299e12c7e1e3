ghost use Rattle.std.specs.Prelude.{◌≡◌, ◌+◌, ◌≤◌};
ghost use Rattle.kit_bytes.specs.Numbers.{u32_bytes};
ghost use Rattle.mbim_frame.specs.Kinds.{kind_number};
ghost use Rattle.mbim_frame.specs.Writing.{close_done, close_request, fragment_head_text, function_error, message_head, message_text, open_done, open_request, plain_done};

use crate::bodies::DoneHead;
use crate::kind::MessageKind;
use crate::number::three_u32_bytes;
use kit_bytes::u32_bytes;
use uuid::Uuid;

/// Opens the function. Its messages have at most `max` bytes.
pub fn open_request(number: u32, max: u32) -> [u8; 16]
    ensures { result ≡ open_request number max }
{
    message_of_16(MessageKind::Open, number, max)
}

/// Closes the function.
pub fn close_request(number: u32) -> [u8; 12]
    ensures { result ≡ close_request number }
{
    message_head(MessageKind::Close.number(), number, 0)
}

/// The answer to an OPEN.
pub fn open_done(number: u32, status: u32) -> [u8; 16]
    ensures { result ≡ open_done number status }
{
    message_of_16(MessageKind::OpenDone, number, status)
}

/// The answer to a CLOSE.
pub fn close_done(number: u32, status: u32) -> [u8; 16]
    ensures { result ≡ close_done number status }
{
    message_of_16(MessageKind::CloseDone, number, status)
}

/// The answer to a message that can't be served.
pub fn function_error(number: u32, code: u32) -> [u8; 16]
    ensures { result ≡ function_error number code }
{
    message_of_16(MessageKind::FunctionError, number, code)
}

/// The answer to a command, without a buffer.
pub fn plain_done(number: u32, uuid: Uuid, cid: u32, status: u32) -> [u8; 48]
    ensures { result ≡ plain_done number (record { uuid = uuid; cid = cid; status = status }) }
{
    let only = NewFragment {
        kind: MessageKind::CommandDone.number(),
        number,
        total: 1,
        current: 0,
    };
    let mut bytes = [0; 48];
    bytes[..20].copy_from_slice(&only.head(28));
    bytes[20..].copy_from_slice(&DoneHead { uuid, cid, status }.bytes(0));
    bytes
}

/// A fragment that is to be written, but for its part of the body.
#[derive(Clone, Copy, PartialEq, Eq)]
pub struct NewFragment {
    /// The number of the message's kind.
    pub kind: u32,
    /// The number that pairs a request with its answer.
    pub number: u32,
    /// How many fragments the message has.
    pub total: u32,
    /// Which of them this one is, counted from 0.
    pub current: u32,
}

impl NewFragment {
    /// The bytes before a part of the body that has this length.
    pub fn head(&self, part_length: u32) -> [u8; 20]
        requires { 20 + part_length ≤ 4294967295 }
        ensures { result ≡ fragment_head_text self.now part_length }
    {
        let mut bytes = [0; 20];
        bytes[..12].copy_from_slice(&message_head(self.kind, self.number, part_length + 8));
        bytes[12..16].copy_from_slice(&u32_bytes(self.total));
        bytes[16..].copy_from_slice(&u32_bytes(self.current));
        bytes
    }
}

// A message with one number behind its head.
fn message_of_16(kind: MessageKind, number: u32, field: u32) -> [u8; 16]
    ensures { result ≡ message_text (kind_number kind) number (u32_bytes field) }
{
    let mut bytes = [0; 16];
    bytes[..12].copy_from_slice(&message_head(kind.number(), number, 4));
    bytes[12..].copy_from_slice(&u32_bytes(field));
    bytes
}

// The head before a tail of this length.
fn message_head(kind: u32, number: u32, tail_length: u32) -> [u8; 12]
    requires { 12 + tail_length ≤ 4294967295 }
    ensures { result ≡ message_head kind number tail_length }
{
    three_u32_bytes(kind, tail_length + 12, number)
}
