ghost use Rattle.lone_client.specs.QmiLaw.{LoneClientsAreAnswered};
ghost use Rattle.lone_client.specs.MbimLaw.{LoneClientsAreServed};

/// The law that a client which is alone with a QMI modem that answers at once gets an answer to each of
/// its messages before it says the next one: the modem's own, under the client's number, or the reply
/// that the client's view decides. A proxy can be run on what it meets then.
pub fn lone_clients_are_answered()
    ensures { LoneClientsAreAnswered }
{}

/// The law that a client which is alone with an MBIM modem that answers at once is served in each of its
/// turns: the proxy opens the modem when the client does, asks it each command under a number of its
/// own, gives the client the modem's answer under the client's number and what the modem tells behind
/// it, and asks for no indications once the client has closed. A proxy can be run on what it meets
/// then.
pub fn lone_clients_are_served()
    ensures { LoneClientsAreServed }
{}
