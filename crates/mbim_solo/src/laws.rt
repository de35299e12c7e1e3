ghost use Rattle.mbim_solo.specs.Law.{PartsAreThePiece, ServedProxiesAreRoomy, GetsTheSameAlone, AloneIsSound, HistoriesAreSame};
ghost use Rattle.mbim_solo.specs.Cores.{CoresQueueTheSame, StepsAreWhatMayCome, CoresMeetWhatMayCome};
ghost use Rattle.mbim_solo.specs.Openings.{OpeningsAreInOrder};

/// The law that a client's bytes, cut at the ends of its messages, are the same bytes and bring the
/// same messages.
pub fn parts_bring_what_the_piece_brings()
    ensures { PartsAreThePiece }
{}

/// The law that the modem's state tells which requests wait and which clients are open: a modem that
/// isn't open is asked nothing but to open, and that once; no client is open where the modem isn't, and
/// none waits for that but while the modem opens.
pub fn openings_are_in_order()
    ensures { OpeningsAreInOrder }
{}

/// The law that a client gets the bytes that it would get if it were alone with the modem, where it
/// was let in, and never met numbers or room that others had taken up. A proxy can be run on what the
/// client would meet alone, and its history is the same for this client. The limits must leave room for
/// what the proxy asks by itself, as those of a proxy that is served do.
pub fn gets_the_same_alone()
    ensures bytes { GetsTheSameAlone }
    ensures sound { AloneIsSound }
    ensures histories { HistoriesAreSame }
    ensures roomy { ServedProxiesAreRoomy }
{}

/// The law that two cores, one that met what all clients do and one that met what a client would meet
/// alone, have the same bytes waiting for this client. A core can step with what may come and with
/// nothing else, so one can be run on either list.
pub fn cores_queue_the_same()
    ensures queues { CoresQueueTheSame }
    ensures steps { StepsAreWhatMayCome }
    ensures meets { CoresMeetWhatMayCome }
{}
