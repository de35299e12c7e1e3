use uuid::Uuid;

/// What is kept of a command of a client that went to the modem: as much as its answer needs.
#[derive(Clone, Copy, PartialEq, Eq)]
pub struct CommandName {
    /// The client's own transaction number.
    pub number: u32,
    /// The UUID of the service.
    pub uuid: Uuid,
    /// Which of the service's commands it is.
    pub cid: u32,
}

/// What is kept of a request that went to the modem.
#[derive(Clone, Copy, PartialEq, Eq)]
pub enum Asked {
    /// The proxy's own request to open the modem.
    Open,
    /// A command: a client's, or the proxy's own request to subscribe.
    Command(CommandName),
}
