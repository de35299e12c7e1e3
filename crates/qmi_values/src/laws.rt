ghost use Rattle.qmi_values.specs.Laws.{HasOneSpelling, SpellsOneValue, BrokenSpellNothing, LongerSpellNothing, HasOneFault};

/// The law that a value has at most one spelling in a well-made shape.
pub fn value_has_one_spelling()
    ensures { HasOneSpelling }
{}

/// The law that bytes spell at most one value in a well-made shape.
pub fn bytes_spell_one_value()
    ensures { SpellsOneValue }
{}

/// The law that bytes which break off in a field spell no value.
pub fn broken_bytes_spell_nothing()
    ensures { BrokenSpellNothing }
{}

/// The law that bytes with more behind a spelling spell no value.
pub fn longer_bytes_spell_nothing()
    ensures { LongerSpellNothing }
{}

/// The law that bytes are refused for one reason, and at one place.
pub fn refusal_has_one_reason()
    ensures { HasOneFault }
{}
