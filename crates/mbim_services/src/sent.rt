use kit_bytes::Octets;
use uuid::Uuid;

/// A command for a modem or its proxy.
#[derive(Drop)]
pub struct Command {
    /// The UUID of its service.
    pub uuid: Uuid,
    /// Its number in its service.
    pub cid: u32,
    /// Whether it changes something, or asks.
    pub set: bool,
    /// The bytes of its information buffer.
    pub buffer: Octets,
}
