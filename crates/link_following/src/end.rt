/// How a following ends.
#[derive(Clone, Copy, PartialEq, Eq)]
pub enum FollowEnd {
    /// The other side has ended the link.
    LinkEnd,
    /// It has gone as many turns as it may.
    TurnsSpent,
    /// The lines couldn't be written.
    WriteFault,
}
