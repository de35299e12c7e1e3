ghost use Rattle.mbim_core.specs.Asks.{TheModemIsAskedForAll};

/// The law of the list that a core asks the modem for: behind each event it is all that the open
/// clients subscribe to, together, wherever the modem may be asked for it.
pub fn the_modem_is_asked_for_all()
    ensures { TheModemIsAskedForAll }
{}
