ghost use Rattle.rig_laws.specs.Laws.{EventsMayCome, NobodyIsDisturbed, EachGetsTheSame, RefusalsAreForShares, LastLinesSayAll};

/// The law that a proxy can be run on the events of any rig, and that a message is answered with an
/// error just where it passes its client's share.
pub fn rigs_can_be_run()
    ensures sound { EventsMayCome }
    ensures refused { RefusalsAreForShares }
{}

/// The law that each client of a rig is let alone, and gets the bytes that it gets alone: the last line
/// of a summary says so of all of them.
pub fn each_client_gets_the_same()
    ensures undisturbed { NobodyIsDisturbed }
    ensures same { EachGetsTheSame }
    ensures line { LastLinesSayAll }
{}
