//! The errors of `QmiProtocolError` that the proxy answers with, and 0 for none.

pub const NO_ERROR: u16 = 0;

pub const MALFORMED_MESSAGE: u16 = 1;

/// As many requests of the client wait as may.
pub const SHARE_PASSED: u16 = 2;

pub const INTERNAL: u16 = 3;

pub const ABORTED: u16 = 4;

pub const CLIENT_IDS_EXHAUSTED: u16 = 5;

pub const INVALID_CLIENT_ID: u16 = 7;

pub const DEVICE_IN_USE: u16 = 23;
