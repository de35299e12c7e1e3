ghost use Rattle.proxy_history.specs.Sound.{RequestsInUseDiffer, WaitingArePresent, HoldersArePresent, FewArePresent, FewAreInUse, GoneViewsStay, EndsAreLast};
ghost use Rattle.proxy_history.specs.Laws.{StreamsGoOnFromTheirRest, InUseUntilFreed, PendingUntilEnded, GivesFirstFree, GivesNoneWhereFull, TakenAndWaitingAreAll, TakingsSplitTheBytes};
ghost use Rattle.proxy_history.specs.Absent.{TheAbsentAddNothing, ALostModemIsAway, AModemThatReturnsIsThere};
ghost use Rattle.proxy_history.specs.Holding.{HeldUntilEnded, HoldersWereGrantedLast, KeptAreNobodys, KeptUntilGranted};
ghost use Rattle.proxy_history.specs.HungUp.{HungUpSinceTheEventBegan};
ghost use Rattle.proxy_history.specs.Orderly.{OrderlyHistoriesAreSound, OthersChangeNothing, BytesOnlyGrow, JoiningStartsWithNone, TakingTakesTheFirst, NobodyThereIsOver, FewWaitForTheModem, AwayAgrees, TimeIsTheGreatest};
ghost use Rattle.proxy_history.specs.Lawful.{OrderlyProxiesAreLawful};

/// The law that what a piece brings depends on the piece and on what the stream left before it.
pub fn streams_go_on_from_their_rest()
    ensures { StreamsGoOnFromTheirRest }
{}

/// The law that a request is in use, or waits, exactly where it was forwarded and no later fact ends that.
pub fn requests_go_on_until_they_end()
    ensures in_use { InUseUntilFreed }
    ensures pending { PendingUntilEnded }
{}

/// The law that the first free number after the last one is given, exactly where fewer than the
/// limit are in use.
pub fn a_free_number_is_given()
    ensures first { GivesFirstFree }
    ensures none { GivesNoneWhereFull }
{}

/// The law that the bytes that a client's socket took and those that wait are all its bytes.
pub fn taken_and_waiting_are_all()
    ensures all { TakenAndWaitingAreAll }
    ensures split { TakingsSplitTheBytes }
{}

/// The law that in a sound history two requests in use differ in their serial numbers and, in one
/// number space, in their transaction numbers.
pub fn requests_in_use_differ()
    ensures { RequestsInUseDiffer }
{}

/// The law that in a sound history whoever waits for an answer or holds a client id is there, or is
/// the proxy itself.
pub fn parties_are_present()
    ensures waiting { WaitingArePresent }
    ensures holders { HoldersArePresent }
{}

/// The law that in a sound history no more connections are there, and no more numbers of a space in
/// use, than may be.
pub fn limits_are_kept()
    ensures present { FewArePresent }
    ensures in_use { FewAreInUse }
{}

/// The law that in a sound history nothing is added to the view of a connection that ended, and
/// that an entry for its end is the last.
pub fn views_of_gone_connections_stay()
    ensures stay { GoneViewsStay }
    ensures last { EndsAreLast }
{}

/// The law that a client id is held exactly where it was granted and no later fact ends that, and
/// that its holder is the connection that it was last granted to.
pub fn client_ids_are_held_until_they_end()
    ensures held { HeldUntilEnded }
    ensures holder { HoldersWereGrantedLast }
{}

/// The law that nobody holds a client id that is kept because its holder went.
pub fn kept_ids_are_nobodys()
    ensures { KeptAreNobodys }
{}

/// The law that a client id is kept exactly since its holder ended, until it is granted again, or the
/// modem begins anew or is lost.
pub fn client_ids_are_kept_until_they_are_granted()
    ensures { KeptUntilGranted }
{}

/// The law that the names to hang up are those of the connections that ended since the event began,
/// but for those that went by themselves.
pub fn hung_up_are_those_that_ended()
    ensures { HungUpSinceTheEventBegan }
{}

/// The law that nothing counts that a connection does while it isn't there, and that the modem is
/// away from its loss until it returns, whatever the protocol.
pub fn the_absent_add_nothing<Known>()
    ensures client { TheAbsentAddNothing Known }
    ensures lost { ALostModemIsAway Known }
    ensures returned { AModemThatReturnsIsThere Known }
{}

/// The laws of every orderly protocol, that is of one whose own parts add no more than they may. Each
/// fact may follow those before it. A client's bytes stay as they are whatever others do, and only
/// grow, but where it joins, which leaves none, or its socket takes the first of them; who is there got
/// all that was due to it. No more bytes wait for the modem than may, the facts say that it is away
/// exactly while its stream says so, and the time is the greatest that the clock showed.
pub fn orderly_protocols_have_these_laws<Known>()
    ensures sound { OrderlyHistoriesAreSound Known }
    ensures others { OthersChangeNothing Known }
    ensures grow { BytesOnlyGrow Known }
    ensures joining { JoiningStartsWithNone Known }
    ensures taking { TakingTakesTheFirst Known }
    ensures room { NobodyThereIsOver Known }
    ensures few { FewWaitForTheModem Known }
    ensures away { AwayAgrees Known }
    ensures time { TimeIsTheGreatest Known }
{}

/// The law that the proxy of an orderly protocol keeps the rules by which its clients can be served
/// over a hub, where there is an end to what it asks the modem by itself.
pub fn orderly_proxies_are_lawful<Known>()
    ensures { OrderlyProxiesAreLawful Known }
{}
