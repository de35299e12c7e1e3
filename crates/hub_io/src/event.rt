use kit_bytes::ConnId;

/// What happens to a proxy. Connections have names, and no two have the same.
#[derive(Clone, Copy)]
pub enum Event<'a> {
    /// A client connected.
    Joined(ConnId),
    /// Bytes of a client.
    Piece(ConnId, &'a [u8]),
    /// A client is gone.
    Left(ConnId),
    ModemPiece(&'a [u8]),
    ModemGone,
    ModemBack,
    /// The clock, in milliseconds.
    Now(u64),
    /// A client's socket took so many of the bytes that were queued for it.
    Took(ConnId, usize),
    ModemTook(usize),
}
