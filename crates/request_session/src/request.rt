ghost use Rattle.std.specs.Prelude.{◌≡◌, ◌≤◌, IfOk, length};
ghost use Rattle.request_session.specs.Requests.{message_of, wanted_by};

use crate::wanted::WantedAnswer;
use device_core::Wanted;
use kit_bytes::Octets;
use qmux_frame::{LONGEST_TLVS, MessageKind, NewMessage, Sender};
use std::alloc::{AllocError, Global};

/// A request of any service, given by its bytes.
#[derive(Drop)]
pub struct TlvRequest {
    pub service: u8,
    /// The message id: which of the service's messages it is.
    pub message: u16,
    /// Its TLVs, one behind another.
    pub tlvs: Octets,
}

impl TlvRequest {
    /// The whole message, with this client id and this number.
    #[tactic(auto, unfolding(crate::specs::Requests::message_of))]
    pub(crate) fn write(&self, alloc: Global, cid: u8, number: u8) -> Result<Octets, AllocError>
        requires { length self.now.tlvs ≤ LONGEST_TLVS }
        ensures { IfOk result (λ message. message ≡ message_of self.now cid number) }
    {
        let message = NewMessage {
            sender: Sender::Host,
            service: self.service,
            cid,
            flags: MessageKind::Request.flags(self.service),
            number: u16::from(number),
            message: self.message,
        };
        message.write(alloc, self.tlvs.as_slice())
    }

    /// What its answer has.
    pub(crate) fn wanted(&self, cid: u8, number: u8) -> WantedAnswer
        ensures { result ≡ wanted_by self.now cid number }
    {
        WantedAnswer {
            wanted: Wanted {
                service: self.service,
                cid,
                number,
            },
            message: self.message,
        }
    }
}
