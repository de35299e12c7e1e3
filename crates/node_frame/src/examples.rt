//! Worked examples of a stream of messages of both kinds.
ghost use Rattle.node_frame.specs.Examples.{MessagesOfBothAreCut, MessageBegunIsLeft, StreamGoesBadBehindMessages};

pub fn messages_of_both_are_cut()
    ensures { MessagesOfBothAreCut }
{}

pub fn message_begun_is_left()
    ensures { MessageBegunIsLeft }
{}

pub fn stream_goes_bad_behind_messages()
    ensures { StreamGoesBadBehindMessages }
{}
