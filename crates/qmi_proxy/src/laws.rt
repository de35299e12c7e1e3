ghost use Rattle.qmi_proxy.specs.Laws.{HistoriesAreSound, NumbersInUseDiffer, WaitingArePresent, HoldersArePresent, FewArePresent, FewAreInUse, NothingFollowsAnEnd, EndsAreLast, AwayAgrees, BytesOnlyGrow, JoiningStartsWithNone, TakingTakesTheFirst, TakingOfTheAbsentTakesNone};
ghost use Rattle.qmi_proxy.specs.Room.{NobodyThereIsOver, NoMoreWaitThanMay};
ghost use Rattle.qmi_proxy.specs.Queue.{ModemBytesOnlyGrow, ModemTakesTheFirst, LossLeavesNone, NoMoreWaitForTheModemThanMay};
ghost use Rattle.qmi_proxy.specs.Asked.{RequestsAreAsked};
ghost use Rattle.qmi_proxy.specs.Regular.{HistoriesAreRegular};
ghost use Rattle.qmi_proxy.specs.Verdicts.{OwnRepliesAreOfTheView, ForwardedHaveTheNextNumber, NoReplyIsForwarded};
ghost use Rattle.qmi_proxy.specs.HungUp.{EventsHangUpTheirOwn};
ghost use Rattle.qmi_proxy.specs.Refusals.{TheOrderLosesNone};
ghost use Rattle.qmi_proxy.specs.Proxy.{ProxiesAreLawful};

/// The law that each fact of a proxy's history may follow those before it.
pub fn histories_are_sound()
    ensures { HistoriesAreSound }
{}

/// The law that two requests in use in one number space have different transaction numbers.
pub fn numbers_in_use_differ()
    ensures { NumbersInUseDiffer }
{}

/// The law that whoever waits for an answer or holds a client id is there, or is the proxy itself.
pub fn parties_are_present()
    ensures waiting { WaitingArePresent }
    ensures holders { HoldersArePresent }
{}

/// The law that no more connections are there, and no more numbers of a space in use, than may be.
pub fn limits_are_kept()
    ensures present { FewArePresent }
    ensures in_use { FewAreInUse }
{}

/// The law that nothing is added to the view of a connection that ended, and that an entry for its
/// end is the last.
pub fn nothing_follows_an_end()
    ensures nothing { NothingFollowsAnEnd }
    ensures last { EndsAreLast }
{}

/// The law that the facts say that the modem is away exactly while its stream says so.
pub fn the_modem_is_away_in_both()
    ensures { AwayAgrees }
{}

/// The law that the bytes for a client only grow: there are none yet where it joins, its socket
/// takes the first of those that wait, and every other event leaves them as they are, perhaps with
/// more behind them.
pub fn bytes_only_grow()
    ensures grow { BytesOnlyGrow }
    ensures joining { JoiningStartsWithNone }
    ensures taking { TakingTakesTheFirst }
    ensures absent { TakingOfTheAbsentTakesNone }
{}

/// The law that a connection that is there got all that was due to it, and that no more bytes wait
/// for a client than may.
pub fn clients_have_room()
    ensures nobody { NobodyThereIsOver }
    ensures within { NoMoreWaitThanMay }
{}

/// The law that the bytes for the modem only grow: the modem takes the first of those that wait, a
/// loss leaves none, and every other event leaves them as they are, perhaps with more behind them.
pub fn modem_bytes_only_grow()
    ensures grow { ModemBytesOnlyGrow }
    ensures taking { ModemTakesTheFirst }
    ensures loss { LossLeavesNone }
{}

/// The law that a reply is that of the client's own view exactly where this view decides, that what is
/// forwarded goes under the next number and finds room, and that nothing goes without a number.
pub fn verdicts_have_what_they_need()
    ensures own { OwnRepliesAreOfTheView }
    ensures forwarded { ForwardedHaveTheNextNumber }
    ensures numbered { NoReplyIsForwarded }
{}

/// The law that an event adds its facts behind the one that begins it, and that the names to hang up
/// are those of the connections that they end, but for those that went by themselves.
pub fn events_hang_up_their_own()
    ensures { EventsHangUpTheirOwn }
{}

/// The law that the order in which requests are refused has each one that waits and no other.
pub fn the_order_of_refusals_loses_none()
    ensures { TheOrderLosesNone }
{}

/// The law that a request, when it is forwarded, is its sender's newest message or the proxy's own
/// Release of a client id, and that its bytes find room in the modem's outbox; so no more bytes wait
/// for the modem than may.
pub fn requests_are_asked()
    ensures asked { RequestsAreAsked }
    ensures within { NoMoreWaitForTheModemThanMay }
{}

/// The law that where the names of those who join rise, and the modem takes no more than waits for
/// it, each request that waits is its sender's message of its place, or the proxy's own, and no
/// connection has the name 0, which is the proxy's.
pub fn histories_are_regular()
    ensures { HistoriesAreRegular }
{}

/// The law that the definitions of a proxy keep the rules by which its clients can be served over a
/// hub.
pub fn proxies_are_lawful()
    ensures { ProxiesAreLawful }
{}
