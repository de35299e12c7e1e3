use kit_bytes::ConnId;

/// What happens to a proxy of several devices. Connections have names, and no two have the same;
/// devices are counted from 0.
#[derive(Clone, Copy)]
pub enum ManyEvent<'a> {
    /// A client connected.
    Joined(ConnId),
    /// Bytes of a client.
    Piece(ConnId, &'a [u8]),
    /// A client is gone.
    Left(ConnId),
    /// A client's socket took so many of the bytes that were queued for it.
    Took(ConnId, usize),
    /// Bytes of a device's modem.
    ModemPiece(usize, &'a [u8]),
    ModemGone(usize),
    ModemBack(usize),
    /// A device's modem took so many of the bytes that were queued for it.
    ModemTook(usize, usize),
    /// The clock, in milliseconds.
    Now(u64),
}
