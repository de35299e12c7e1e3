use kit_bytes::Octets;
use tlv_codec::Outcome;

/// An answer.
#[derive(Drop)]
pub struct TlvAnswer {
    /// What its Result TLV says.
    pub outcome: Outcome,
    /// All of its TLVs, as they came.
    pub tlvs: Octets,
}

/// How a session ends.
#[derive(Drop)]
pub enum RequestEnd {
    /// The proxy or the modem refused what the request needs first, with this error.
    NotSent(u16),
    Answered {
        answer: TlvAnswer,
        /// The service and the client id that are kept, if any are.
        kept: Option<(u8, u8)>,
    },
}
