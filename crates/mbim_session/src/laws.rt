ghost use Rattle.mbim_session.specs.Peer.{SessionsEndAsAtPeers, VerdictsAreOfWhatIsRead};
ghost use Rattle.mbim_session.specs.Sending.{SessionsSendAndTake, SessionsSendTheirMessages};

/// The law that the calls of a session are sends and takes alone, and that what it sends are the
/// messages of its plan, one after another: before each take whole ones, in all up to some byte, and
/// all of them where it ends well.
pub fn sessions_send_their_messages()
    ensures calls { SessionsSendAndTake }
    ensures messages { SessionsSendTheirMessages }
{}

/// The law that the verdict by which a session goes on from an answer is that of what is read of it.
pub fn verdicts_are_of_what_is_read()
    ensures { VerdictsAreOfWhatIsRead }
{}

/// The law that over any link to a peer a session sends what it does at the peer, and ends with the
/// same message, however the link cuts the peer's bytes into pieces.
pub fn sessions_end_as_at_peers()
    ensures { SessionsEndAsAtPeers }
{}
