ghost use Rattle.qmi_isolation.specs.Laws.{OthersChangeNothing, AnswersHaveOneReceiver, OwnAnswersAreForNobody, OtherAnswersHaveNone, HeldIdsAreNotGranted, IdsAreFreeWhenGranted, HeldIdsAreNotUsed, IndicationsReachTheirReceivers, HoldersAloneAreTold, TheIdleAreNotRefused, NumbersAreFreeWhenGiven};
ghost use Rattle.qmi_isolation.specs.Queues.{ForwardedRequestsAreQueued, AnswersStand};
ghost use Rattle.qmi_isolation.specs.Shares.{SharesAreTheViewsOwn, ViewsDecideFirst};

/// The law that what other clients do, whatever it is, leaves a client's bytes as they are.
pub fn others_change_nothing()
    ensures { OthersChangeNothing }
{}

/// The law that an answer of the modem to a client's request whose sender waits comes to this sender
/// alone, once, under its own number, with two exceptions: where it brings a client id that another
/// client or the proxy itself holds, the sender gets a refusal in its place, and where the sender's
/// queue has no room it gets nothing more. An answer to the proxy's own request reaches nobody, and
/// neither does one that nobody waits for.
pub fn answers_have_one_receiver()
    ensures one { AnswersHaveOneReceiver }
    ensures own { OwnAnswersAreForNobody }
    ensures none { OtherAnswersHaveNone }
{}

/// The law that neither an answer nor a message takes a client id from the client that holds it, nor
/// from the proxy itself while it releases it. An answer of the modem to an Allocate which brings it for
/// another client grants nothing, and is refused to its sender; another client's message which uses it
/// isn't forwarded. So none is granted while another holds it.
pub fn held_ids_are_not_granted()
    ensures answers { HeldIdsAreNotGranted }
    ensures free { IdsAreFreeWhenGranted }
    ensures requests { HeldIdsAreNotUsed }
{}

/// The law that an indication reaches its receivers, each once, and nobody else. The only receiver of
/// one for a client id is the holder of that id.
pub fn indications_reach_their_receivers()
    ensures receivers { IndicationsReachTheirReceivers }
    ensures holders { HoldersAloneAreTold }
{}

/// The law that the clock, a modem that begins anew and the loss of the modem bring nothing to a client
/// that waits for no answer, whatever client ids the proxy itself releases by the clock.
pub fn the_idle_are_not_refused()
    ensures { TheIdleAreNotRefused }
{}

/// The law that a transaction number is given while no request in use has it. A request whose time
/// is over stays in use until its answer comes, the modem begins anew, or the modem is lost.
pub fn numbers_are_free_when_given()
    ensures { NumbersAreFreeWhenGiven }
{}

/// The law that a client's message which is forwarded stands in the modem's queue at the end of its own
/// event, under the next number, whole and once, behind all that waited there before it: nothing that
/// the same piece brings behind it takes it out again.
pub fn forwarded_requests_are_queued()
    ensures { ForwardedRequestsAreQueued }
{}

/// The law that what a client is due for the modem's answer to its request stands in its queue at the
/// end of the answer's own event, whatever the same piece of the modem brings behind it. A client whose
/// queue has no room for it is ended, and gets nothing more.
pub fn answers_stand()
    ensures { AnswersStand }
{}

/// The law that a client's share is its own view's: which of its requests wait in a space is read from
/// its view alone, as those that were forwarded and that no answer and no refusal followed. So is what
/// the proxy refuses for the share, which stands behind what it replies to by itself and before all that
/// clients share.
pub fn shares_are_the_views_own()
    ensures shares { SharesAreTheViewsOwn }
    ensures decisions { ViewsDecideFirst }
{}
