ghost use Rattle.rig_laws_mbim.specs.Law.{EachRunIsFair};

/// The law that in each run of the rig, with 1 to 64 clients, whatever is drawn, each client gets the
/// bytes that it gets alone: the events may come, nobody is told of others, a message is refused just
/// where it passes its client's share, and the last line says that all are equal.
pub fn each_client_gets_the_same()
    ensures { EachRunIsFair }
{}
