ghost use Rattle.std.specs.Prelude.{◌≡◌, ◌+◌, ◌≤◌, ◌++◌, IfOk, length};
ghost use Rattle.qmux_frame.specs.Writing.{frame_head, head_text, inner_head, message_text, sender_byte};

use crate::short::ShortBytes;
use kit_bytes::{Octets, u16_bytes};
use std::alloc::{AllocError, Global};

/// The most bytes of TLVs that a message of each service has room for.
pub const LONGEST_TLVS: usize = 65_523;

/// Who sends a message.
#[derive(Clone, Copy, PartialEq, Eq)]
pub enum Sender {
    Host,
    Modem,
}

impl Sender {
    fn byte(self) -> u8
        ensures { result ≡ sender_byte self }
    {
        match self {
            Sender::Host => 0x00,
            Sender::Modem => 0x80,
        }
    }
}

/// A message that is to be written, but for its TLVs.
#[derive(Clone, Copy, PartialEq, Eq)]
pub struct NewMessage {
    pub sender: Sender,
    pub service: u8,
    /// The client id.
    pub cid: u8,
    /// Byte 6, which tells a request, a response and an indication apart.
    pub flags: u8,
    /// The number that pairs a request with its answer. Service 0 has numbers of one byte.
    pub number: u16,
    /// The message id: which of the service's messages it is.
    pub message: u16,
}

impl NewMessage {
    /// The whole message with these TLVs.
    pub fn write(&self, alloc: Global, tlvs: &[u8]) -> Result<Octets, AllocError>
        requires number { self.now.service ≡ 0 → self.now.number ≤ 255 }
        requires room { length tlvs.now ≤ LONGEST_TLVS }
        ensures { IfOk result (λ octets. octets ≡ message_text self.now tlvs.now) }
    {
        let head = self.head(tlvs.len() as u16);
        let mut octets = Octets::new(alloc);
        octets.extend_from_slices(head.bytes(), tlvs)?;
        Ok(octets)
    }

    /// The bytes before TLVs of this length.
    #[tactic(auto, unfolding(crate::specs::Writing::head_text))]
    pub(crate) fn head(&self, tlv_length: u16) -> ShortBytes
        requires number { self.now.service ≡ 0 → self.now.number ≤ 255 }
        requires room { tlv_length ≤ LONGEST_TLVS }
        ensures text { result ≡ head_text self.now tlv_length }
        ensures short { length result ≤ 13 }
    {
        let [number_low, number_high] = u16_bytes(self.number);
        let [id_low, id_high] = u16_bytes(self.message);
        let [length_low, length_high] = u16_bytes(tlv_length);
        let mut head = ShortBytes::new();
        if self.service == 0 {
            head.push(&self.frame_head(tlv_length + 6));
            head.push(&[self.flags, number_low]);
        } else {
            head.push(&self.frame_head(tlv_length + 7));
            head.push(&[self.flags, number_low, number_high]);
        }
        head.push(&[id_low, id_high, length_low, length_high]);
        head
    }

    // The frame's bytes before so many more.
    fn frame_head(&self, inner_length: u16) -> [u8; 6]
        requires { inner_length + 5 ≤ 65535 }
        ensures { result ≡ frame_head self.now inner_length }
    {
        let [low, high] = u16_bytes(inner_length + 5);
        [0x01, low, high, self.sender.byte(), self.service, self.cid]
    }
}
