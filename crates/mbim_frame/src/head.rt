ghost use Rattle.std.specs.Prelude.{◌≡◌, ◌≤◌, length};
ghost use Rattle.mbim_frame.specs.Head.{head_of, with_number};
ghost use Rattle.mbim_frame.specs.Kinds.{kind_numbered};

use crate::kind::MessageKind;
use kit_bytes::{u32_at, u32_bytes};

/// The fields at the head of a message.
#[derive(Clone, Copy, PartialEq, Eq)]
pub struct MHead {
    /// The number of the message's kind.
    pub kind: u32,
    /// How many bytes the message has.
    pub length: u32,
    /// The number that pairs a request with its answer.
    pub number: u32,
}

impl MHead {
    /// The head of a message, which is its first 12 bytes.
    pub fn read(message: &[u8]) -> MHead
        requires { 12 ≤ length message.now }
        ensures { result ≡ head_of message.now }
    {
        MHead {
            kind: u32_at(message, 0),
            length: u32_at(message, 4),
            number: u32_at(message, 8),
        }
    }

    /// What kind of message it is, or None where its number is no kind's.
    pub fn message_kind(&self) -> Option<MessageKind>
        ensures { result ≡ kind_numbered self.now.kind }
    {
        MessageKind::numbered(self.kind)
    }
}

/// Gives a message another number. Its head is enough.
pub fn set_number(message: &mut [u8], number: u32)
    requires { 12 ≤ length message.old }
    ensures { message.new ≡ with_number number message.old }
{
    message[8..12].copy_from_slice(&u32_bytes(number));
}
