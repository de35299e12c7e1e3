ghost use Rattle.device_core.specs.Peer.{SessionsEndAsAtPeers};
ghost use Rattle.device_core.specs.Sending.{SessionsSendAndTake, SessionsSendTheirRequests};
ghost use Rattle.device_core.specs.Verdict.{VerdictsAreOfWhatIsRead};

/// The law that the calls of a session are sends and takes alone, and that what it sends are the
/// messages of its plan's requests, one after another: before each take whole ones, in all up to
/// some byte, and all of them where it ends well.
pub fn sessions_send_their_requests()
    ensures calls { SessionsSendAndTake }
    ensures requests { SessionsSendTheirRequests }
{}

/// The law that whether an answer reads and whether it is a success, as functions of its bytes, are
/// what is read of it.
pub fn verdicts_are_of_what_is_read()
    ensures { VerdictsAreOfWhatIsRead }
{}

/// The law that over any link to a peer a session sends what it does at the peer, and ends with the
/// same message: a function of what the peer says alone, however its bytes are cut into pieces.
pub fn sessions_end_as_at_peers()
    ensures { SessionsEndAsAtPeers }
{}
