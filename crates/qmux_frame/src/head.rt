ghost use Rattle.std.specs.Prelude.{◌≡◌, ◌≤◌, length};
ghost use Rattle.qmux_frame.specs.Head.{tlvs_in};

use crate::kind::MessageKind;
use kit_bytes::u16_at;

/// The fields at the head of a message.
#[derive(Clone, Copy, PartialEq, Eq)]
pub struct Head {
    pub service: u8,
    /// The client id.
    pub cid: u8,
    /// Byte 6, which tells a request, a response and an indication apart.
    pub flags: u8,
    /// The number that pairs a request with its answer.
    pub number: u16,
    /// The message id: which of the service's messages it is.
    pub message: u16,
    /// The head is whole, and its TLV length counts the bytes behind it.
    pub framed: bool,
}

impl Head {
    ghost use Rattle.std.specs.Prelude.{◌==◌, ◌&&◌};
    ghost use Rattle.qmux_frame.specs.Head.{head_of};
    ghost use Rattle.qmux_frame.specs.Kind.{kind_by};

    /// The head of a whole message, which has at least 12 bytes.
    pub fn read(message: &[u8]) -> Head
        requires { 12 ≤ length message.now }
        ensures { result ≡ head_of message.now }
    {
        let service = message[4];
        let cid = message[5];
        let flags = message[6];
        if service == 0 {
            Head {
                service,
                cid,
                flags,
                number: u16::from(message[7]),
                message: u16_at(message, 8),
                framed: 12 + usize::from(u16_at(message, 10)) == message.len(),
            }
        } else {
            Head {
                service,
                cid,
                flags,
                number: u16_at(message, 7),
                message: u16_at(message, 9),
                framed: message.len() >= 13
                    && 13 + usize::from(u16_at(message, 11)) == message.len(),
            }
        }
    }

    /// What kind of message it is.
    pub fn kind(&self) -> MessageKind
        ensures { result ≡ kind_by self.now.service self.now.flags }
    {
        MessageKind::of(self.service, self.flags)
    }

    /// Whether it is the message of service 0 (CTL) with this id.
    pub fn is_command(&self, id: u16) -> bool
        ensures { result ≡ (self.now.service == 0 && self.now.message == id) }
    {
        self.service == 0 && self.message == id
    }
}

/// The bytes behind the head of a message, which are its TLVs.
pub fn tlvs_in(message: &[u8]) -> &[u8]
    requires { 12 ≤ length message.now }
    ensures { result.now ≡ tlvs_in message.now }
{
    let head_length = if message[4] == 0 { 12 } else { 13 };
    &message[head_length.min(message.len())..]
}
