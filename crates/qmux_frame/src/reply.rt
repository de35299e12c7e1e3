ghost use Rattle.std.specs.Prelude.{◌≡◌, ◌≤◌, ℕ, List};
ghost use Rattle.framing.specs.Framing.{AreBytes};
ghost use Rattle.qmux_frame.specs.Head.{head_of};
ghost use Rattle.qmux_frame.specs.Reply.{reply_of, reply_to, result_reply, result_tlv, short_number};

use crate::Head;
use crate::kind::MessageKind;
use crate::short::ShortBytes;
use crate::writing::{NewMessage, Sender};
use kit_bytes::u16_bytes;

/// A response that tells a result alone. It takes no memory.
pub type Reply = ShortBytes;

/// The response to a message with this head.
pub fn result_reply(head: &Head, error: u16) -> Reply
    ensures bytes { result ≡ reply_of head.now error }
    ensures answers { (message : List ℕ) → AreBytes message → head_of message ≡ head.now → result ≡ result_reply message error }
{
    let tlv = result_tlv(error);
    let mut reply = reply_to(head).head(7);
    reply.push(&tlv);
    reply
}

/// What answers a message with this head, but for its TLVs.
pub fn reply_to(head: &Head) -> NewMessage
    ensures reply { result ≡ reply_to head.now }
    ensures fits { result.service ≡ 0 → result.number ≤ 255 }
{
    NewMessage {
        sender: Sender::Modem,
        service: head.service,
        cid: head.cid,
        flags: MessageKind::Response.flags(head.service),
        number: short_number(head),
        message: head.message,
    }
}

// Service 0 has numbers of one byte.
fn short_number(head: &Head) -> u16
    ensures number { result ≡ short_number head.now }
    ensures fits { head.now.service ≡ 0 → result ≤ 255 }
{
    if head.service == 0 {
        head.number % 256
    } else {
        head.number
    }
}

/// The Result TLV with this error, where 0 is success.
pub fn result_tlv(error: u16) -> [u8; 7]
    ensures { result ≡ result_tlv error }
{
    let status = u8::from(error != 0);
    let [low, high] = u16_bytes(error);
    [0x02, 0x04, 0x00, status, 0x00, low, high]
}
