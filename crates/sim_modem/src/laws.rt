ghost use Rattle.sim_modem.specs.Laws.{MeetsEach};

/// The law that a modem begins as its machine does, and goes on so: if it has met some messages, it
/// sends what it is to answer to one more, and then has met that one too.
pub fn each_message_is_met<S>()
    ensures { MeetsEach S }
{}
