//! Clients and a simulated modem with a running core of a proxy between them. Each takes at once all
//! that waits for it, and the modem's messages are held until they arrive.
#![tactic(auto)]

mod messages;
mod running;
mod stage;

pub use messages::{first_message, joined};
pub use running::{count_modem_waiting, count_waiting, meet, modem_takes};
pub use stage::Stage;
