ghost use Rattle.pump.specs.Laws.{WhatWasReadIsSent, WhatWasTakenIsWritten, WholeMessagesAreWrittenAlone};

/// The law that what a pump sends which reads a node is a front of the letter `r` and of what the
/// reads gave behind it, which holds all of it but the last piece, and is the whole where the node
/// has ended.
pub fn what_was_read_is_sent()
    ensures { WhatWasReadIsSent }
{}

/// The law that what a pump sends which writes to a node is a front of the letter `w`, and that
/// what it writes is a front of what the takes gave, which holds all of it but the last piece, and
/// is the whole where the link has ended.
pub fn what_was_taken_is_written()
    ensures { WhatWasTakenIsWritten }
{}

/// The law that of what goes to a node whole messages are written one by one, that each end of a
/// message ends a write, and that what no message ends in, or begins, is written as it came.
pub fn whole_messages_are_written_alone()
    ensures { WholeMessagesAreWrittenAlone }
{}
