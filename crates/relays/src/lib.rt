//! Laws: a tool prints the same at a simulated modem itself and alone through the proxy, and a QMI tool
//! carried by a simulated MBIM modem.
#![tactic(auto)]

mod carried;
mod mbim;
mod qmi;

pub use carried::{carried_sessions_are_as_written, carried_tools_print_the_same};
pub use mbim::{
    mbim_relays_are_as_written, mbim_tools_print_the_same, the_premises_of_mbim_can_be_met,
};
pub use qmi::{
    qmi_relays_are_as_written, qmi_tools_print_the_same, the_premises_of_qmi_can_be_met,
};
