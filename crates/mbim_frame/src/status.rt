//! The statuses of answers that the project writes.
//!
//! Source: the USB-IF MBIM specification 1.0, MBIM_STATUS_CODES. Which of them stands for which refusal
//! is the project's own.

pub const SUCCESS: u32 = 0;

pub const BUSY: u32 = 1;

pub const FAILURE: u32 = 2;

pub const NO_DEVICE_SUPPORT: u32 = 9;

pub const NOT_INITIALIZED: u32 = 14;

pub const INVALID_PARAMETERS: u32 = 21;
