/// The client id of a request.
#[derive(Clone, Copy, PartialEq, Eq)]
pub struct Client {
    /// Of service 0, which has no client ids, it is 0.
    pub id: u8,
    /// The number of the next request to service 0.
    pub next: u8,
}

/// What asking for the modem and for a client id comes to.
#[derive(Clone, Copy, PartialEq, Eq)]
pub enum Access {
    Client(Client),
    /// The proxy or the modem refused with this error.
    Refused(u16),
}
