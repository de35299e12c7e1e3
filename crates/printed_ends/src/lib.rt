//! What a tool of either kind prints where its session ended, and its status. And what a session over a
//! link to a peer comes to.
#![tactic(auto)]

mod carried;
mod held;
mod mbim;
mod printed;
mod qmi;

pub use carried::hold_carried;
pub use held::Held;
pub use mbim::hold_mbim;
pub use printed::{Printed, Twice};
pub use qmi::hold_qmi;
