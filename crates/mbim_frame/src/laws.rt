//! Laws of the messages that are written.
ghost use Rattle.mbim_frame.specs.Laws.{CommandIsRead, DoneIsRead, FragmentIsRead, KindsAreTold, RenumberedIsTheSame, WrittenIsRead};

/// What is written is one whole message, whose head and tail read as they were written.
pub fn written_is_read()
    ensures { WrittenIsRead }
{}

/// A message with another number has that number, and is the same message in all else.
pub fn renumbered_is_the_same()
    ensures { RenumberedIsTheSame }
{}

/// Each kind has its own number.
pub fn kinds_are_told()
    ensures { KindsAreTold }
{}

/// A fragment is one whole message, whose heads and part of the body read as they were written.
pub fn fragment_is_read()
    ensures { FragmentIsRead }
{}

/// The body of a command reads as it was written.
pub fn command_is_read()
    ensures { CommandIsRead }
{}

/// The body of an answer reads as it was written.
pub fn done_is_read()
    ensures { DoneIsRead }
{}
