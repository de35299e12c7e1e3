ghost use Rattle.sim_serving.specs.Laws.{SimulatedModemsAreLawful, GetsItsOwnAnswers, PlainModemsHangNobodyUp};

/// The law that serving a simulated modem keeps the rules by which clients can be served over a hub.
pub fn simulated_modems_are_lawful()
    ensures { SimulatedModemsAreLawful }
{}

/// The law that a client whose name is no other's gets the answers to its own requests, in their
/// order, and no others.
pub fn a_client_gets_its_own_answers()
    ensures { GetsItsOwnAnswers }
{}

/// The law that a modem that hangs nobody up is asked all that comes whole, and that only a bad stream
/// ends a connection to it.
pub fn plain_modems_hang_nobody_up()
    ensures { PlainModemsHangNobodyUp }
{}
