ghost use Rattle.mbim_examples.specs.Losses.{LossRefusesWhatWaits, BadStreamIsALoss, HalfAnAnswerIsLost, ReturnInAMessage};

pub fn loss_refuses_what_waits()
    ensures { LossRefusesWhatWaits }
{}

pub fn bad_stream_is_a_loss()
    ensures { BadStreamIsALoss }
{}

pub fn half_an_answer_is_lost()
    ensures { HalfAnAnswerIsLost }
{}

pub fn return_in_a_message()
    ensures { ReturnInAMessage }
{}
