/// How a pump ends.
#[derive(Clone, Copy, PartialEq, Eq)]
pub enum PumpEnd {
    /// The side that it takes bytes from has ended.
    Ended,
    /// A call on the link failed.
    LinkFault,
    /// The node couldn't be opened or read.
    ReadFault,
    /// The node couldn't be written.
    WriteFault,
    /// It has read or taken as often as it may.
    TurnsSpent,
}
