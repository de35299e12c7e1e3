ghost use Rattle.message_tables.specs.Laws.{IsByMembers, AreWholeText};

/// The law that an object's form is by its `format`, given what its `array-element` and its `contents`
/// describe.
pub fn forms_are_by_their_members()
    ensures { IsByMembers }
{}

/// The law that the lines of a text, one after another, are the text.
pub fn lines_are_the_text()
    ensures { AreWholeText }
{}
