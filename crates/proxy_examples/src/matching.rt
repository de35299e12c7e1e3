ghost use Rattle.proxy_examples.specs.Matching.{OthersAnswersAreStray, BothBitsAreAResponse, OtherMessagesAreStray};

pub fn answers_of_others_are_stray()
    ensures { OthersAnswersAreStray }
{}

pub fn both_bits_are_a_response()
    ensures { BothBitsAreAResponse }
{}

pub fn other_messages_are_stray()
    ensures { OtherMessagesAreStray }
{}
