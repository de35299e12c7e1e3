use kit_bytes::PathText;
use qmi_requests::QmiRequest;

/// What a session with a QMI modem is to do.
#[derive(Drop)]
pub struct QmiPlan {
    /// The path of the device.
    pub device: PathText,
    /// Whether a proxy is asked for the device first.
    pub proxied: bool,
    /// The client id that the command uses. Without one, one is allocated.
    pub cid: Option<u8>,
    /// Whether the client id is kept, and not given back.
    pub keep: bool,
    /// For how many seconds without a byte each answer is waited for.
    pub timeout: u16,
    /// The command.
    pub request: QmiRequest,
}
