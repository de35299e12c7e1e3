ghost use Rattle.mbim_examples.specs.Shares.{SeventeenthIsRefused, AnswersMakeRoom, ExpiryMakesRoom, ClosesAtItsShare};

pub fn the_17th_command_is_refused()
    ensures { SeventeenthIsRefused }
{}

pub fn answers_make_room()
    ensures { AnswersMakeRoom }
{}

pub fn expiry_makes_room()
    ensures { ExpiryMakesRoom }
{}

pub fn closes_at_its_share()
    ensures { ClosesAtItsShare }
{}
