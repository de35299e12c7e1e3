ghost use Rattle.mbim_proxy.specs.Asked.{RequestsAreAsked};
ghost use Rattle.mbim_proxy.specs.Configuration.{NamesByItsLayout};
ghost use Rattle.mbim_proxy.specs.Delivered.{FragmentsAreHeardWhole, HearingGoesOn};
ghost use Rattle.mbim_proxy.specs.Laws.{AskersArePresent, AwayAgrees, BytesOnlyGrow, EndsAreLast, EqualViewsGetEqualBytes, EventsHangUpTheirOwn, FewAreInUse, FewArePresent, HistoriesAreSound, JoiningStartsWithNone, LossLeavesNone, MbimIsOrderly, ModemBytesOnlyGrow, ModemTakesTheFirst, NoMoreWaitForTheModemThanMay, NoMoreWaitThanMay, NobodyThereIsOver, NothingFollowsAnEnd, NumbersInUseDiffer, OthersChangeNothing, TakingTakesTheFirst, TakingsBringOneRequest, TimeIsTheGreatest, WaitingArePresent};
ghost use Rattle.mbim_proxy.specs.Merging.{LastListIsMerged};
ghost use Rattle.mbim_proxy.specs.Proxy.{ProxiesAreLawful};
ghost use Rattle.mbim_proxy.specs.Verdicts.{ForwardedHaveTheNextNumber, NoReplyIsForwarded, OwnRepliesAreOfTheView, SharesArePassed};
ghost use Rattle.mbim_frame.specs.declared.kind.MessageKind.TheVariants.{CommandDone, IndicateStatus};

/// The law that each part of the protocol adds no more to a history than it may.
pub fn mbim_is_orderly()
    ensures { MbimIsOrderly }
{}

/// The law that each fact of a proxy's history may follow those before it.
pub fn histories_are_sound()
    ensures { HistoriesAreSound }
{}

/// The law that two requests in use have different transaction numbers.
pub fn numbers_in_use_differ()
    ensures { NumbersInUseDiffer }
{}

/// The law that whoever waits for an answer is there, or is the proxy itself, and that whoever waits
/// for the modem to open is there.
pub fn parties_are_present()
    ensures askers { AskersArePresent }
    ensures waiting { WaitingArePresent }
{}

/// The law that no more connections are there, and no more numbers in use, than may be.
pub fn limits_are_kept()
    ensures present { FewArePresent }
    ensures in_use { FewAreInUse }
{}

/// The law that nothing is added to the view of a connection that ended, and that an entry for its
/// end is the last.
pub fn nothing_follows_an_end()
    ensures nothing { NothingFollowsAnEnd }
    ensures last { EndsAreLast }
{}

/// The law that an event adds its facts behind the one that begins it, and that the names to hang up
/// are those of the connections that they end, but for those that went by themselves.
pub fn events_hang_up_their_own()
    ensures { EventsHangUpTheirOwn }
{}

/// The law that a client's bytes are made of its view and of the device's path, and of nothing else that a
/// proxy is set up with.
pub fn equal_views_get_equal_bytes()
    ensures { EqualViewsGetEqualBytes }
{}

/// The law that the bytes for a client stay as they are whatever others do, and only grow: there are
/// none yet where it joins, its socket takes the first of those that wait, and every other event
/// leaves them as they are, perhaps with more behind them.
pub fn bytes_only_grow()
    ensures others { OthersChangeNothing }
    ensures grow { BytesOnlyGrow }
    ensures joining { JoiningStartsWithNone }
    ensures taking { TakingTakesTheFirst }
{}

/// The law that a connection that is there got all that was due to it, and that no more bytes wait
/// for a client than may.
pub fn clients_have_room()
    ensures nobody { NobodyThereIsOver }
    ensures within { NoMoreWaitThanMay }
{}

/// The law that the facts say that the modem is away exactly while its stream says so.
pub fn the_modem_is_away_in_both()
    ensures { AwayAgrees }
{}

/// The law that the bytes for the modem only grow: a loss leaves none, the modem takes the first of
/// those that wait, behind which the proxy's own request may come then, and every other event leaves
/// them as they are, perhaps with more behind them.
pub fn modem_bytes_only_grow()
    ensures grow { ModemBytesOnlyGrow }
    ensures taking { ModemTakesTheFirst }
    ensures loss { LossLeavesNone }
{}

/// The law that the modem's takings bring one request of the proxy itself at most: while one waits, or
/// the modem isn't open, they bring none. So a loop that sends until nothing waits comes to an end.
pub fn takings_bring_one_request()
    ensures { TakingsBringOneRequest }
{}

/// The law that the time is the greatest that the clock showed.
pub fn time_is_the_greatest()
    ensures { TimeIsTheGreatest }
{}

/// The law that a request carries the command that its sender's newest message completes, or is the
/// proxy's own: it opens a modem that is shut, or subscribes for all clients that are open. Its bytes
/// find room in the modem's outbox, so no more bytes wait for the modem than may.
pub fn requests_are_asked()
    ensures asked { RequestsAreAsked }
    ensures within { NoMoreWaitForTheModemThanMay }
{}

/// The law that what is heard of the modem's further messages depends on them and on the fragments
/// that those before left open.
pub fn hearing_goes_on()
    ensures { HearingGoesOn }
{}

/// The law that while the modem is open and no request of the proxy itself waits, it was last asked
/// for the list of all open clients together, unless no number or no room is there to ask for it.
pub fn the_last_list_is_merged()
    ensures { LastListIsMerged }
{}

/// The law that a reply is that of the client's own view exactly where this view decides, that a command is
/// refused for the client's share exactly where as many wait as may, that what is forwarded goes under the
/// number with which it can be queued, and that nothing goes without a number.
pub fn verdicts_have_what_they_need()
    ensures own { OwnRepliesAreOfTheView }
    ensures share { SharesArePassed }
    ensures forwarded { ForwardedHaveTheNextNumber }
    ensures numbered { NoReplyIsForwarded }
{}

/// The law that a buffer names the device exactly where it has the fields of a configuration, in the layout
/// of the command, with the device's path. (Lists of subscriptions are read by the definitions of
/// `mbim_services`, of which the like is a law there.)
pub fn devices_are_named_by_the_layout()
    ensures { NamesByItsLayout }
{}

/// The law that an answer and an indication that were written in fragments are heard as the one message
/// that carries the whole body, and leave nothing open.
pub fn fragments_are_heard_whole()
    ensures answers { FragmentsAreHeardWhole CommandDone }
    ensures indications { FragmentsAreHeardWhole IndicateStatus }
{}

/// The law that the definitions of a proxy keep the rules by which its clients can be served over a
/// hub.
pub fn proxies_are_lawful()
    ensures { ProxiesAreLawful }
{}
