ghost use Rattle.tool_runs.specs.Calling.{ExchangesAreOneVisit, ExchangesSendTheRequests};

/// The law that, of all calls on the link of a modem that was reached, none opens it again, and one
/// closes it, the last; and that what is sent are the messages of the plan's requests,
/// one after another: before each take whole ones, in all up to some byte, and all of them where the
/// session ends well.
pub fn links_are_closed_once()
    ensures visit { ExchangesAreOneVisit }
    ensures requests { ExchangesSendTheRequests }
{}
