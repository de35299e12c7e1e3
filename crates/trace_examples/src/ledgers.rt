ghost use Rattle.trace_examples.specs.Ledgers.{NothingIsBrought, ARequestIsAsked, AnAnswerFindsItsRequest, TheTimeGoesOn, OthersAreLeftOut};

pub fn what_brings_nothing_is_refused()
    ensures { NothingIsBrought }
{}

pub fn a_request_is_asked()
    ensures { ARequestIsAsked }
{}

pub fn an_answer_finds_its_request()
    ensures { AnAnswerFindsItsRequest }
{}

pub fn the_time_goes_on()
    ensures { TheTimeGoesOn }
{}

pub fn others_are_left_out()
    ensures { OthersAreLeftOut }
{}
