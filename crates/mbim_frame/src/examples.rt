//! Worked examples, byte for byte.
ghost use Rattle.mbim_frame.specs.Examples.{LengthsHaveLimits, MessagesAreWritten, QueryIsRead, StreamIsCut};

pub fn lengths_have_limits()
    ensures { LengthsHaveLimits }
{}

pub fn query_is_read()
    ensures { QueryIsRead }
{}

pub fn stream_is_cut()
    ensures { StreamIsCut }
{}

pub fn messages_are_written()
    ensures { MessagesAreWritten }
{}
