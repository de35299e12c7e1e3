//! Worked examples, byte for byte.

ghost use Rattle.sim_mbim.specs.Examples.{OpeningComesFirst, CommandsAreRefused, FragmentsAreJoined, DeviceIsDescribed, RadioIsTold, SessionsAreKept, MessagesDontMove, EntriesFindPlaces, DialogueComesBack};

/// The modem answers commands once it is opened, and stays open.
pub fn opening_comes_first()
    ensures { OpeningComesFirst }
{}

/// Commands that aren't in the tables, and commands whose buffers say nothing that has a meaning.
pub fn commands_are_refused()
    ensures { CommandsAreRefused }
{}

/// Commands that come in fragments, and answers that go in fragments.
pub fn fragments_are_joined()
    ensures { FragmentsAreJoined }
{}

/// What the modem says of itself and of its network.
pub fn device_is_described()
    ensures { DeviceIsDescribed }
{}

/// A set of the radio is told behind its answer to whoever listens to it, and to nobody else.
pub fn radio_is_told()
    ensures { RadioIsTold }
{}

/// Sessions are connected and disconnected.
pub fn sessions_are_kept()
    ensures { SessionsAreKept }
{}

/// A message that is deleted leaves the others their indexes.
pub fn messages_dont_move()
    ensures { MessagesDontMove }
{}

/// An entry of the phone book is written to the least place that isn't used, or to the one that is
/// named.
pub fn entries_find_places()
    ensures { EntriesFindPlaces }
{}

/// A dialogue with the network echoes.
pub fn dialogue_comes_back()
    ensures { DialogueComesBack }
{}
