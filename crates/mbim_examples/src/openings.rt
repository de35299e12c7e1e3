ghost use Rattle.mbim_examples.specs.Openings.{OneAnswerEach, MustConfigureAndOpen, ClientsShareTheOpening, OneOpeningWaits, WhoLeavesWaitsNoMore, RefusedOpenings, AnswersFitTheirRequests, ExpiredOpening, NobodyOpensAnAbsentModem};

pub fn one_answer_each()
    ensures { OneAnswerEach }
{}

pub fn must_configure_and_open()
    ensures { MustConfigureAndOpen }
{}

pub fn clients_share_the_opening()
    ensures { ClientsShareTheOpening }
{}

pub fn one_opening_waits()
    ensures { OneOpeningWaits }
{}

pub fn who_leaves_waits_no_more()
    ensures { WhoLeavesWaitsNoMore }
{}

pub fn refused_openings()
    ensures { RefusedOpenings }
{}

pub fn answers_fit_their_requests()
    ensures { AnswersFitTheirRequests }
{}

pub fn expired_opening()
    ensures { ExpiredOpening }
{}

pub fn nobody_opens_an_absent_modem()
    ensures { NobodyOpensAnAbsentModem }
{}
