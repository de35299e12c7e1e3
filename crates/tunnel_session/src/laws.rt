ghost use Rattle.tunnel_session.specs.Peer.{SessionsEndAsAtPeers};

/// The law that over any link to a peer a session sends what it does at the peer, and ends with the
/// same message, however the link cuts the peer's bytes into pieces.
pub fn sessions_end_as_at_peers()
    ensures { SessionsEndAsAtPeers }
{}
