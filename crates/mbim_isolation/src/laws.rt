ghost use Rattle.mbim_isolation.specs.Laws.{AnswersHaveOneReceiver, OtherAnswersHaveNone, OpeningsAnswerTheWaiting, IndicationsReachTheirReceivers, TheIdleAreNotRefused, NumbersAreFreeWhenGiven, TimeFreesNoNumber};
ghost use Rattle.mbim_isolation.specs.Shares.{SharesAreTheViewsOwn, ViewsDecideFirst};
ghost use Rattle.mbim_isolation.specs.Queues.{ForwardedCommandsAreQueued, AnswersStand, OpeningsStand};

/// The law that an answer of the modem to a command whose sender waits comes to this sender alone,
/// once, under its own number and in fragments of its own length; where the sender's queue has no room
/// it gets nothing and is ended. An answer that nobody waits for, and one to the proxy's own request to
/// subscribe, reaches no client.
pub fn answers_have_one_receiver()
    ensures one { AnswersHaveOneReceiver }
    ensures none { OtherAnswersHaveNone }
{}

/// The law that the answer to the proxy's own request to open answers exactly those who wait for that,
/// each once and under its own number.
pub fn openings_answer_the_waiting()
    ensures { OpeningsAnswerTheWaiting }
{}

/// The law that an indication reaches each open client that wants it, once, and nobody else.
pub fn indications_reach_their_receivers()
    ensures { IndicationsReachTheirReceivers }
{}

/// The law that neither the clock nor a loss of the modem brings bytes to a client that waits for no
/// answer and not for the modem to open.
pub fn the_idle_are_not_refused()
    ensures { TheIdleAreNotRefused }
{}

/// The law that a request is forwarded under a number that no request has in use, and that one whose
/// time is over keeps its number.
pub fn numbers_are_free_when_given()
    ensures free { NumbersAreFreeWhenGiven }
    ensures kept { TimeFreesNoNumber }
{}

/// The law that a client's command that is forwarded stands in the modem's queue when its event is over,
/// under the next number, whole and once, behind all that waited there before it.
pub fn forwarded_commands_are_queued()
    ensures { ForwardedCommandsAreQueued }
{}

/// The law that what a client is due for an answer to its command, or to its request to open, stands in
/// its queue when the answer's event is over, where it finds room; else the client is ended, gets nothing
/// and is hung up. Want of room is all that ends a client then.
pub fn answers_stand()
    ensures commands { AnswersStand }
    ensures openings { OpeningsStand }
{}

/// The law that a client's share is its own view's: how many of its commands wait is read from its view
/// alone, as those that were forwarded and that no answer and no refusal followed. So what the proxy
/// refuses for the share, as what it replies to by itself, the client could tell beforehand.
pub fn shares_are_the_views_own()
    ensures shares { SharesAreTheViewsOwn }
    ensures decisions { ViewsDecideFirst }
{}
