//! Worked examples of what a modem answers.

ghost use Rattle.sim_modem.specs.Examples.{MessagesAreMetInTurn};

/// The oldest message is met first, and an answer comes of the state before its message.
pub fn messages_are_met_in_turn()
    ensures { MessagesAreMetInTurn }
{}
