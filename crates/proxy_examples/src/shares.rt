ghost use Rattle.proxy_examples.specs.Shares.{SeventeenthIsRefused, AnswersMakeRoom, ExpiryMakesRoom};

pub fn the_17th_request_is_refused()
    ensures { SeventeenthIsRefused }
{}

pub fn answers_make_room()
    ensures { AnswersMakeRoom }
{}

pub fn expiry_makes_room()
    ensures { ExpiryMakesRoom }
{}
