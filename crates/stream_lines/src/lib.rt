//! A captured stream, shown message by message in lines, read after read. The lines of what a read gave
//! are written before the next read.
#![tactic(auto)]

mod capture;
mod end;
mod reads;
mod shows;
mod stream;

pub use capture::show_capture;
pub use end::DissectEnd;
pub use shows::Shows;
pub use stream::{Stream, show_all};
