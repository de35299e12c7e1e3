//! Benches that note what a proxy meets on them, and the run of one client alone by such notes.
#![tactic(auto)]

mod alone;
mod counting;
mod ledger;
mod mbim;
mod notes;
mod noting;
mod qmi;
mod reading;
mod slices;

pub use alone::run_alone;
pub use mbim::MbimReading;
pub use noting::Noting;
pub use qmi::QmiReading;
pub use reading::{Reading, SHORTEST};
