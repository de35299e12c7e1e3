//! Worked examples, byte for byte.

ghost use Rattle.tunnel_session.specs.Examples.{AnswersAreTakenOut, MessagesAreCarried};

/// A request for the versions of the services, as it is sent.
pub fn messages_are_carried()
    ensures { MessagesAreCarried }
{}

/// An answer, and what breaks the session or refuses the request in its place.
pub fn answers_are_taken_out()
    ensures { AnswersAreTakenOut }
{}
