use kit_bytes::Text;

/// The limits that one proxy is opened with.
#[derive(Clone, Copy, PartialEq, Eq)]
pub struct Limits {
    /// How long a request waits for its answer, in milliseconds.
    pub time: u64,
    /// For how long a client id is kept whose holder went, in milliseconds, before the QMI proxy
    /// releases it; it never does where there is none.
    pub release: Option<u64>,
}

/// When a serving ends by itself.
#[derive(Clone, Copy, PartialEq, Eq)]
pub struct Until {
    /// Once nobody has been connected for so many milliseconds.
    pub empty: Option<u64>,
    /// Once the device is lost.
    pub lost: bool,
}

/// How a proxy is served.
#[derive(Drop)]
pub struct Settings {
    /// The path of the device, by which clients open it.
    pub device: Text,
    /// How long a request waits for its answer, in milliseconds.
    pub time: u64,
    /// For how long a client id is kept whose holder went, in milliseconds, before the QMI proxy
    /// releases it; it never does where there is none.
    pub release: Option<u64>,
    /// When the serving ends by itself.
    pub until: Until,
    /// The serving ends after so many events.
    pub turns: u64,
}

/// Why the serving ended.
#[derive(Clone, Copy, Debug, PartialEq, Eq)]
pub enum ServeEnd {
    /// The hub said so.
    Stopped,
    /// Nobody was connected for long enough.
    Empty,
    /// The device was lost.
    Lost,
    /// The hub failed.
    HubFault,
    TurnsSpent,
    OutOfMemory,
}
