//! Worked examples of the modem's messages, byte for byte.

ghost use Rattle.sim_qmi.specs.Examples.{IdsAreGiven, MessagesKeepTheirIndexes, ModeIsSet, ModelIsTold, NetworksStartAndStop, OthersBringNothing, RequestsAreRefused, SendingCounts, VersionsAreTold};

/// The least client id that is free is given, and one that was given back is given again.
pub fn ids_are_given()
    ensures { IdsAreGiven }
{}

/// The services are told, each in version 1.0.
pub fn versions_are_told()
    ensures { VersionsAreTold }
{}

/// A text of the profile is told.
pub fn the_model_is_told()
    ensures { ModelIsTold }
{}

/// The error that refuses a request is the first that fits it.
pub fn requests_are_refused()
    ensures { RequestsAreRefused }
{}

/// A message that isn't framed, and one that isn't a request, bring nothing.
pub fn other_messages_bring_nothing()
    ensures { OthersBringNothing }
{}

/// The operating mode is set, which is told behind the response where an id of NAS is given.
pub fn the_mode_is_set()
    ensures { ModeIsSet }
{}

/// The handle that was given last stops the network, once.
pub fn networks_start_and_stop()
    ensures { NetworksStartAndStop }
{}

/// A message is deleted once, and the others keep their indexes.
pub fn messages_keep_their_indexes()
    ensures { MessagesKeepTheirIndexes }
{}

/// Each message that is sent has the next number, and isn't kept.
pub fn sending_counts()
    ensures { SendingCounts }
{}
