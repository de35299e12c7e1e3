use kit_bytes::{ConnId, Octets};

/// What a proxy met.
#[derive(Drop)]
pub enum Met {
    /// A client joined.
    Joins(ConnId),
    /// A client said a message.
    Said(ConnId, Octets),
    /// The modem answers a client's message from this place, counted from 1, or would where that
    /// client is alone.
    Heard(ConnId, u64, Octets),
    /// A client took these bytes.
    Takes(ConnId, Octets),
    /// The clock showed this time.
    ClockShows(u64),
}
