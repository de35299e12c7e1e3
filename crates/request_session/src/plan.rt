use crate::request::TlvRequest;
use kit_bytes::PathText;

/// What a session for a request is to do.
#[derive(Drop)]
pub struct RequestPlan {
    /// The path of the device.
    pub device: PathText,
    /// Whether a proxy is asked for the device first.
    pub proxied: bool,
    /// The client id that the request uses. Without one, one is allocated.
    pub cid: Option<u8>,
    /// Whether the client id is kept, and not given back.
    pub keep: bool,
    /// For how many seconds without a byte each answer is waited for.
    pub timeout: u16,
    pub request: TlvRequest,
}
