use qmi_requests::QmiRequest;

/// What is asked of the QMI modem, with the client id and the number of its message.
#[derive(Clone, Copy)]
pub(crate) struct CarriedRequest<'a> {
    pub(crate) body: &'a QmiRequest,
    pub(crate) cid: u8,
    pub(crate) number: u8,
}
