ghost use Rattle.std.specs.Prelude.{◌≡◌, ◌≤◌, ◌==◌, ◌||◌, ◌++◌, true, length, take, drop, is_some, IfSome};
ghost use Rattle.qmux_frame.specs.Head.{is_control, service_of, cid_of, number_of};
ghost use Rattle.qmux_frame.specs.Kind.{framed_kind};
ghost use Rattle.qmux_frame.specs.Control.{is_command, is_sync};
ghost use Rattle.qmux_frame.specs.Reply.{result_reply, with_number};
ghost use Rattle.qmi_proxy.specs.Messages.{value_of, has_length, byte_of, is_malformed, opens, has_bad_id, uses_id, used_service, used_cid, is_success};
ghost use Rattle.qmi_proxy.specs.Releases.{release_of};
ghost use Rattle.qmi_state.specs.Asked.{asked_of};
ghost use Rattle.qmi_core.specs.Message.{tells_id};
ghost use Rattle.qmi_proxy.specs.OwnReplies.{view_decides, own_error, is_opening};
ghost use Rattle.proxy_history.specs.Facts.{Own};

use crate::errors::{INTERNAL, INVALID_CLIENT_ID, MALFORMED_MESSAGE, NO_ERROR};
use qmi_state::Asked;
use qmux_frame::{Head, MessageKind, Reply, control, set_number, tlvs_in};
use std::marker::Model;
use tlv_codec::{outcome_in, tlv_value};

/// A whole message, with what the proxy reads of it.
#[derive(Drop)]
pub struct Message<'a> {
    bytes: &'a [u8],
    head: Head,
    // the value of the first TLV 0x01
    value: Option<&'a [u8]>,
}

impl<'a> Model for Message<'a> {
    ghost use Rattle.std.specs.Prelude.{ℕ, List};
    ghost use Rattle.qmi_core.specs.Message.{bytes_of, IsRead};

    ghost Value = { List ℕ };

    ghost view = { bytes_of };

    ghost invariant = { IsRead };
}

impl<'a> Message<'a> {
    /// Reads a whole message, which has at least 12 bytes.
    pub fn read(bytes: &'a [u8]) -> Self
        requires { 12 ≤ length bytes.now }
        ensures { result ≡ bytes.now }
    {
        Message {
            bytes,
            head: Head::read(bytes),
            value: tlv_value(tlvs_in(bytes), 0x01),
        }
    }

    /// The error of the reply that the client's own view decides, 0 for success; none where what all
    /// clients share decides.
    pub fn own_reply(&self, device: &[u8], opened: bool) -> Option<u16>
        ensures own { is_some result ≡ view_decides opened self.now }
        ensures error { IfSome result (λ error. error ≡ own_error device.now opened self.now) }
    {
        if self.is_malformed() {
            Some(MALFORMED_MESSAGE)
        } else if self.opens(device) {
            Some(NO_ERROR)
        } else if self.is_command(control::PROXY_OPEN) || !opened {
            Some(INTERNAL)
        } else if self.is_command(control::SYNC) {
            Some(NO_ERROR)
        } else if self.has_bad_id() {
            Some(INVALID_CLIENT_ID)
        } else {
            None
        }
    }

    /// Whether it opens the device of this path.
    pub fn is_opening(&self, device: &[u8]) -> bool
        ensures { result ≡ is_opening device.now self.now Own }
    {
        !self.is_malformed() && self.opens(device)
    }

    // Whether it names the device of this path, well formed or not.
    fn opens(&self, device: &[u8]) -> bool
        ensures { result ≡ opens device.now self.now }
    {
        self.is_command(control::PROXY_OPEN) && self.value.is_some_and(|value| value == device)
    }

    /// The reply to it with this error alone.
    pub fn reply(&self, error: u16) -> Reply
        ensures { result ≡ result_reply self.now error }
    {
        qmux_frame::result_reply(&self.head, error)
    }

    /// What is kept of it once it went to the modem.
    #[tactic(auto, unfolding(qmi_state::specs::Asked::asked_of))]
    pub fn asked(&self) -> Asked
        ensures { result ≡ asked_of self.now }
    {
        Asked {
            head: first_bytes(self.bytes),
            service: self.used_service(),
            cid: self.used_cid(),
        }
    }

    /// Its first bytes with this number in place of its own; `rest` has the others.
    pub fn numbered(&self, number: u16) -> [u8; 12]
        requires { is_control self.now ≡ true → number ≤ 255 }
        ensures { result ++ drop 12 self.now ≡ with_number number self.now }
    {
        let mut head = first_bytes(self.bytes);
        set_number(&mut head, number);
        head
    }

    /// The bytes behind its first 12.
    pub fn rest(&self) -> &'a [u8]
        ensures rest { result.now ≡ drop 12 self.now }
        ensures long { 12 ≤ length self.now }
    {
        &self.bytes[12..]
    }

    pub fn bytes(&self) -> &'a [u8]
        ensures { result.now ≡ self.now }
    {
        self.bytes
    }

    pub fn is_control(&self) -> bool
        ensures { result ≡ is_control self.now }
    {
        self.head.service == 0
    }

    pub fn service(&self) -> u8
        ensures { result ≡ service_of self.now }
    {
        self.head.service
    }

    pub fn cid(&self) -> u8
        ensures { result ≡ cid_of self.now }
    {
        self.head.cid
    }

    pub fn number(&self) -> u16
        ensures { result ≡ number_of self.now }
    {
        self.head.number
    }

    /// What kind of message it is, where its head counts its TLVs.
    pub fn kind(&self) -> Option<MessageKind>
        ensures { result ≡ framed_kind self.now }
    {
        if self.head.framed {
            Some(self.head.kind())
        } else {
            None
        }
    }

    pub fn is_sync(&self) -> bool
        ensures { result ≡ is_sync self.now }
    {
        self.is_command(control::SYNC)
    }

    /// Whether it uses a client id.
    pub fn uses_id(&self) -> bool
        ensures { result ≡ uses_id self.now }
    {
        self.head.service != 0 || self.is_command(control::RELEASE)
    }

    pub fn used_service(&self) -> u8
        ensures { result ≡ used_service self.now }
    {
        if self.head.service == 0 {
            self.byte(0)
        } else {
            self.head.service
        }
    }

    pub fn used_cid(&self) -> u8
        ensures { result ≡ used_cid self.now }
    {
        if self.head.service == 0 {
            self.byte(1)
        } else {
            self.head.cid
        }
    }

    /// Whether its Result TLV says success.
    pub fn is_success(&self) -> bool
        ensures { result ≡ is_success self.now }
    {
        outcome_in(tlvs_in(self.bytes)).is_some_and(|outcome| outcome.is_success())
    }

    /// Whether it says success and brings a client id: the service in byte 0 of TLV 0x01, the id in
    /// byte 1.
    pub fn tells_id(&self) -> bool
        ensures { result ≡ tells_id self.now }
    {
        self.is_success() && self.has_length(2) && self.byte(0) != 0 && !is_nobodys(self.byte(1))
    }

    fn is_malformed(&self) -> bool
        ensures { result ≡ is_malformed self.now }
    {
        !self.head.framed
            || self.head.flags != 0
            || (self.head.service == 0 && self.head.cid != 0)
            || (self.is_command(control::PROXY_OPEN) && self.value.is_none())
            || (self.is_command(control::ALLOCATE) && !self.has_length(1))
            || (self.is_command(control::RELEASE) && !self.has_length(2))
    }

    // Whether the client id that it uses is one that no client has.
    fn has_bad_id(&self) -> bool
        ensures { result ≡ has_bad_id self.now }
    {
        if self.head.service != 0 {
            is_nobodys(self.head.cid)
        } else {
            self.is_command(control::RELEASE) && (self.byte(0) == 0 || is_nobodys(self.byte(1)))
        }
    }

    fn is_command(&self, id: u16) -> bool
        ensures { result ≡ is_command id self.now }
    {
        self.head.is_command(id)
    }

    // Whether its TLV 0x01 has a value of so many bytes.
    fn has_length(&self, count: usize) -> bool
        ensures { result ≡ has_length count (value_of 0x01 self.now) }
    {
        self.value.is_some_and(|value| value.len() == count)
    }

    /// A byte of the value of its TLV 0x01, 0 where there is none.
    pub fn byte(&self, at: usize) -> u8
        ensures { result ≡ byte_of at (value_of 0x01 self.now) }
    {
        match self.value {
            Some(value) if at < value.len() => value[at],
            _ => 0,
        }
    }
}

/// The message by which the proxy asks the modem to release the client id, with the number 0.
pub fn release_message(service: u8, cid: u8) -> [u8; 17]
    ensures { result ≡ release_of service cid }
{
    [
        0x01, 0x10, 0x00, 0x00, 0x00, 0x00, 0x00, 0x00, 0x23, 0x00, 0x05, 0x00, 0x01, 0x02, 0x00,
        service, cid,
    ]
}

// No client has this id: 0 is service 0's, and 255 is everybody's.
fn is_nobodys(cid: u8) -> bool
    ensures { result ≡ (cid == 0 || cid == 255) }
{
    cid == 0 || cid == 255
}

fn first_bytes(message: &[u8]) -> [u8; 12]
    requires { 12 ≤ length message.now }
    ensures { result ≡ take 12 message.now }
{
    let mut head = [0; 12];
    head.copy_from_slice(&message[..12]);
    head
}
