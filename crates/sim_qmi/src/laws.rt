ghost use Rattle.sim_qmi.specs.Laws.{EachRequestIsAnswered, NoIdIsGivenTwice, OnlyTheInputIsMissed};
ghost use Rattle.sim_qmi.specs.Short.{ControlRequestsAreAnswered, FirstIdsAreOne, RequestsAreAnswered, UnknownIdsAreRefused};

/// The law that no client id of a service is given twice: one that is given is given to nobody else
/// until it is given back.
pub fn no_id_is_given_twice()
    ensures { NoIdIsGivenTwice }
{}

/// The law that a request is answered by one response, which has its service, its client id, its
/// number and its message id. Behind it stands the Serving System indication of the state then where
/// the request set the operating mode and any client id of NAS is given, and else nothing.
pub fn each_request_is_answered()
    ensures { EachRequestIsAnswered }
{}

/// The law that a request of a message of the table asks something, unless the message has the input
/// 0x01, and this is missing or unreadable.
pub fn only_the_input_is_missed()
    ensures { OnlyTheInputIsMissed }
{}

/// The law that a request of service 0, and one of another service unless somebody might be told of it,
/// is answered by one response with at most 5,000 bytes of TLVs, and by nothing else; a client id that
/// isn't given is refused, and the first one that a modem gives is 1.
pub fn requests_have_short_answers()
    ensures control { ControlRequestsAreAnswered }
    ensures others { RequestsAreAnswered }
    ensures unknown { UnknownIdsAreRefused }
    ensures first { FirstIdsAreOne }
{}
