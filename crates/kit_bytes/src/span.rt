/// A part of a buffer, from `start` up to `end`.
#[derive(Clone, Copy, PartialEq, Eq)]
pub struct Span {
    pub start: usize,
    pub end: usize,
}

/// What a cutter finds next in a stream.
#[derive(Clone, Copy, PartialEq, Eq)]
pub enum Cut {
    /// A whole message.
    Whole(Span),
    /// The stream goes on with less than a whole message.
    NeedMore,
    /// The stream goes on, from this place, with bytes that begin no message.
    Bad(u64),
}
