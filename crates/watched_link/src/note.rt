use link_io::Made;

/// What a watched link notes. Its bytes stand beside it.
#[derive(Clone, Copy, PartialEq, Eq)]
pub enum LinkNote {
    /// A call was made. Of a send that failed no bytes stand there, since nobody knows how many went.
    Called(Made),
    /// The call before it failed, and the system says this of it.
    Said,
}
