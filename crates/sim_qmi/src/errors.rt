//! The errors with which the modem refuses.

pub(crate) const CLIENT_IDS_EXHAUSTED: u16 = 5;

pub(crate) const INVALID_CLIENT_ID: u16 = 7;

pub(crate) const MISSING_ARGUMENT: u16 = 17;

pub(crate) const INVALID_COMMAND: u16 = 71;
