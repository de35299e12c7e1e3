//! Streams of bytes cut into messages that say near their front how long they are.
//!
//! A protocol's framing is an `impl` of [`Framing`]; [`Cutter`] cuts a stream by it, in whatever
//! pieces the stream comes.
#![tactic(auto)]

mod cutter;
mod framing;
mod laws;

pub use cutter::{Cutter, LONGEST_PIECE};
pub use framing::{Framing, Size};
pub use laws::{cutting_is_the_only_one, pieces_make_no_difference};
