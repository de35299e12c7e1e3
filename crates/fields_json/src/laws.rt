ghost use Rattle.fields_json.specs.Laws.{AnswersAreShallow, NestsAsItsLayout};
ghost use Rattle.fields_json.specs.Told.{AnswersAreTold, JsonTellsValues};

/// The law that the JSON of a success nests no deeper than the layout of its fields, and no command's answer deeper
/// than a reader of JSON goes.
pub fn json_nests_as_its_layout()
    ensures nests { NestsAsItsLayout }
    ensures shallow { AnswersAreShallow }
{}

/// The law that two answers to a command whose JSON is the same have the same values.
pub fn json_tells_values()
    ensures { JsonTellsValues }
{}

/// The law that the layout of each command's answer is one whose JSON tells its values.
pub fn names_stand_apart()
    ensures { AnswersAreTold }
{}
