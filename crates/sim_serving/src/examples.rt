//! Worked examples of what clients of a simulated modem get.

ghost use Rattle.sim_serving.specs.Examples.{AnswersGoLate, ClientsShareOneModem, RequestsAreAskedOnceWhole, BadStreamsAreHungUp, ModemsHangUp, WhoLeftGetsNothing, WhoComesBackBeginsAnew, TakenBytesWaitNoLonger, TicksTellClients};

/// The clients share one modem, which counts the requests of both.
pub fn clients_share_one_modem()
    ensures { ClientsShareOneModem }
{}

/// A request is asked once it is whole, behind one that was whole before.
pub fn requests_are_asked_once_whole()
    ensures { RequestsAreAskedOnceWhole }
{}

/// A client whose stream goes bad is hung up, once what was whole before is asked.
pub fn bad_streams_are_hung_up()
    ensures { BadStreamsAreHungUp }
{}

/// A client is hung up at the request at which the modem says so, which is the last that it asks.
pub fn modems_hang_up()
    ensures { ModemsHangUp }
{}

/// A client that left asks nothing.
pub fn who_left_gets_nothing()
    ensures { WhoLeftGetsNothing }
{}

/// Half a request of a client that left is no part of what it sends under its next name.
pub fn who_comes_back_begins_anew()
    ensures { WhoComesBackBeginsAnew }
{}

/// What a socket took waits no longer, and what comes then waits behind the rest.
pub fn taken_bytes_wait_no_longer()
    ensures { TakenBytesWaitNoLonger }
{}

/// An answer that is late goes at its tick, to the client that asked, if it is still there.
pub fn answers_go_late()
    ensures { AnswersGoLate }
{}

/// What a modem tells by the clock goes to each client.
pub fn ticks_tell_clients()
    ensures { TicksTellClients }
{}
