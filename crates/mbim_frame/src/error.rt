//! The codes of a FUNCTION_ERROR that the project writes.
//!
//! Source: the USB-IF MBIM specification 1.0, MBIM_FUNCTION_ERROR_MSG. Which of them stands for which
//! refusal is the project's own.

/// The fragment isn't the one that is due.
pub const OUT_OF_SEQUENCE: u32 = 2;

/// The message has another length than its kind or its fields say.
pub const LENGTH_MISMATCH: u32 = 3;

/// The sender hasn't opened the function.
pub const NOT_OPENED: u32 = 5;

/// The message is of no kind that is known.
pub const UNKNOWN_KIND: u32 = 6;

/// The message is longer than can be taken.
pub const TOO_LONG: u32 = 8;
