ghost use Rattle.link_session.specs.Peer.{LinksDecideNothing, PeersCanBeAsked};

/// The law that a request over a link to a peer ends as at the peer, in whatever pieces and at
/// whatever times its bytes come.
pub fn links_decide_nothing()
    ensures { LinksDecideNothing }
{}

/// The law that a request can be made over a link that brings what a peer says, in any pieces, and
/// ends as at the peer.
pub fn peers_can_be_asked()
    ensures { PeersCanBeAsked }
{}
