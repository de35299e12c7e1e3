ghost use Rattle.json_values.specs.Laws.{GivesWhatFits};

/// The law that a value that JSON gives in a shape is one that the shape spells.
pub fn given_values_fit()
    ensures { GivesWhatFits }
{}
