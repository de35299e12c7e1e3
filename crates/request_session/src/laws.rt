ghost use Rattle.request_session.specs.Peer.{SessionsEndAsAtPeers};

/// The law that over any link to a peer a session sends what it does at the peer, and ends so,
/// however its bytes are cut into pieces.
pub fn sessions_end_as_at_peers()
    ensures { SessionsEndAsAtPeers }
{}
