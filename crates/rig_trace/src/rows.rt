use kit_bytes::ConnId;

/// What a request, as the modem sees it, and its answer have in common.
#[derive(Clone, Copy, PartialEq, Eq)]
pub struct Key {
    /// What tells requests of one number apart: a service, or the kind of a message.
    pub kind: u32,
    /// The client id, where the protocol has such.
    pub cid: u8,
    /// The number that the modem sees.
    pub number: u32,
}

/// A request whose number is in use.
#[derive(Clone, Copy, PartialEq, Eq)]
pub struct Row {
    /// Counts the requests from 1.
    pub serial: u64,
    /// The client that made the proxy ask.
    pub conn: ConnId,
    /// By which of its messages, counted from 1.
    pub place: u64,
    pub key: Key,
    /// Whether the proxy made it by itself.
    pub own: bool,
    /// Until when it waits for its answer, in milliseconds.
    pub deadline: u64,
}

/// What became of the clients' requests.
#[derive(Clone, Copy, PartialEq, Eq)]
pub struct Counts {
    pub forwarded: u64,
    /// Those that were answered while their senders waited.
    pub answered: u64,
    pub expired: u64,
    /// Those that were answered when nobody waited any more.
    pub late: u64,
    /// The messages that neither opened the device nor were forwarded.
    pub refused: u64,
}
