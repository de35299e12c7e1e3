ghost use Rattle.mbim_examples.specs.Answers.{NoAnswerInTime, RefusedInOrder, ErrorsAndBadAnswers, OrphansKeepTheirNumber, ClosedClients, NobodySubscribes, NoNumberIsFree, NoRoomToTheModem, OpeningWithoutANumber, NumbersOfASpace, NoRoomForTheClient};

pub fn no_answer_in_time()
    ensures { NoAnswerInTime }
{}

pub fn refused_in_order()
    ensures { RefusedInOrder }
{}

pub fn errors_and_bad_answers()
    ensures { ErrorsAndBadAnswers }
{}

pub fn orphans_keep_their_number()
    ensures { OrphansKeepTheirNumber }
{}

pub fn closed_clients()
    ensures { ClosedClients }
{}

pub fn nobody_subscribes()
    ensures { NobodySubscribes }
{}

pub fn no_number_is_free()
    ensures { NoNumberIsFree }
{}

pub fn no_room_to_the_modem()
    ensures { NoRoomToTheModem }
{}

pub fn opening_without_a_number()
    ensures { OpeningWithoutANumber }
{}

pub fn numbers_of_a_space()
    ensures { NumbersOfASpace }
{}

pub fn no_room_for_the_client()
    ensures { NoRoomForTheClient }
{}
