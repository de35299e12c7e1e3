//! What a simulated modem is to be.
#![tactic(auto)]

use kit_bytes::{Kind, PathText};

/// A simulated modem of a kind, to whose socket clients connect. It has the profile of the file at a
/// path, or the default one where no file is named, and serves for so many turns at most.
#[derive(Drop)]
pub struct SimTask {
    pub kind: Kind,
    pub socket: PathText,
    pub profile: Option<PathText>,
    pub turns: u64,
}
