/// A client id of a service.
#[derive(Clone, Copy, PartialEq, Eq)]
pub(crate) struct ClientId {
    pub(crate) service: u8,
    pub(crate) id: u8,
}
