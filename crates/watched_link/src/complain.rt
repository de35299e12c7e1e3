use link_io::{Link, MemLink};
use std::io;

/// A link that can say why a call failed.
pub trait Complain: Link {
    /// What the system says of the call that failed last, if it says something.
    fn complaint(&self) -> Option<io::Error>;
}

impl Complain for MemLink {
    fn complaint(&self) -> Option<io::Error> {
        Some(io::Error::other("as its script says"))
    }
}
