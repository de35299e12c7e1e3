//! QMI messages in the commands of an MBIM modem.
//!
//! Source: `QMI` in libmbim's data/mbim-service-qmi.json.
#![tactic(auto)]

pub mod examples;
mod service;
mod unwrapping;
mod wrapping;

pub use service::{QMI_MESSAGE, QMI_SERVICE};
pub use unwrapping::{Ragged, unwrap};
pub use wrapping::wrap;
