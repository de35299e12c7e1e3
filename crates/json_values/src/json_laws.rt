ghost use Rattle.json_values.specs.JsonLaws.{GivesBack, GivesBackWhatIsRead, NestsAsItsForm, WordsStandBeside};

/// The law that the JSON of a value that fits gives the value back, its words left out.
pub fn json_gives_values_back()
    ensures { GivesBack }
{}

/// The law that so does the JSON of a value that bytes spell, as those of an answer.
pub fn json_gives_back_what_is_read()
    ensures { GivesBackWhatIsRead }
{}

/// The law that words are members beside the others: without them the JSON is that of no words.
pub fn words_stand_beside()
    ensures { WordsStandBeside }
{}

/// The law that the JSON of a value nests no deeper than its shape.
pub fn json_nests_as_its_shape()
    ensures { NestsAsItsForm }
{}
