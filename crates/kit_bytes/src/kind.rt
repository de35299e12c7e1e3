/// A modem's protocol.
#[derive(Clone, Copy, Debug, PartialEq, Eq)]
pub enum Kind {
    /// The Qualcomm MSM Interface.
    Qmi,
    /// The Mobile Broadband Interface Model.
    Mbim,
}
