ghost use Rattle.session_script.specs.Peer.{ScriptsEndAsAtPeers};
ghost use Rattle.session_script.specs.Script.{ScriptsGoOn};

/// The law that the calls of a script and those of another that follows its end are the calls of both
/// as one script.
pub fn scripts_go_on<A, E>()
    ensures { ScriptsGoOn A E }
{}

/// The law that over any link to a peer a session by a script sends what it does at the peer, and
/// ends so, however its bytes are cut into pieces.
pub fn scripts_end_as_at_peers<E>()
    ensures { ScriptsEndAsAtPeers E }
{}
