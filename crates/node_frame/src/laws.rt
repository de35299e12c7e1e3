ghost use Rattle.node_frame.specs.Laws.{MessagesAreTold, NoBytesBeginBoth};

/// The law that a message of QMUX is one that the node is written, and that one of MBIM is which has
/// one of the types that a host sends.
pub fn messages_are_told()
    ensures { MessagesAreTold }
{}

/// The law that no message of QMUX begins like one of MBIM which has one of the types that a host
/// sends.
pub fn no_bytes_begin_both()
    ensures { NoBytesBeginBoth }
{}
