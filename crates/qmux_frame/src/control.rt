//! The ids of the messages of service 0 (CTL) that a proxy knows.

/// Tells the versions of the services.
pub const GET_VERSION_INFO: u16 = 0x0021;

/// Asks for a client id of a service.
pub const ALLOCATE: u16 = 0x0022;

/// Gives a client id back.
pub const RELEASE: u16 = 0x0023;

/// Asks the modem to begin anew, or says that it did.
pub const SYNC: u16 = 0x0027;

/// Names the device that a client of a proxy wants.
pub const PROXY_OPEN: u16 = 0xff00;
