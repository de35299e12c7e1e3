//! Commands of a tool that is alone, each run at a simulated modem itself and in each other way, and how
//! they compare.
//!
//! The other ways are through a core of a proxy before a simulated modem, on a bench, and carried by a
//! simulated MBIM modem.
#![tactic(auto)]

mod asking;
mod carried;
mod carrier;
mod line;
mod lines;
mod mbim;
mod mbim_trial;
mod modem;
mod proxy;
mod qmi;
mod qmi_trial;
mod ranges;
mod relaying;
mod runs_twice;
mod sim;
mod tools;

pub use carried::qmi_tunnelled;
pub use lines::{NamedRequest, transparency_lines};
pub use mbim::mbim_twice;
pub use qmi::qmi_twice;
pub use runs_twice::RunsTwice;
pub use tools::tool_lines;
