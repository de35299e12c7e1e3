ghost use Rattle.tlv_values.specs.Laws.{AreSpelled, OnlyTheseSpell, ReadAsSpelled};

/// The law that a value that fits a well-made shape is spelled by its spelling.
pub fn fitting_values_are_spelled()
    ensures { AreSpelled }
{}

/// The law that only values that fit are spelled, and by nothing but their spellings.
pub fn only_spellings_spell()
    ensures { OnlyTheseSpell }
{}

/// The law that bytes read as the value that they spell.
pub fn bytes_read_as_spelled()
    ensures { ReadAsSpelled }
{}
