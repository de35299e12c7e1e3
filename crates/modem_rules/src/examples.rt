//! Worked examples of values that are rules, and of some that are none.

ghost use Rattle.modem_rules.specs.Examples.{ErrorsHaveTheirSize, HangingUpIsSpelledOut, IndicationsHaveOneTime, LateAnswersAreCounted, RulesHaveNoOtherMembers, SilenceIsSpelledOut};

/// A rule has the members that its list asks for, and no others.
pub fn rules_have_no_other_members()
    ensures { RulesHaveNoOtherMembers }
{}

/// A fault that isn't answered says so; one that lacks its error is no rule.
pub fn silence_is_spelled_out()
    ensures { SilenceIsSpelledOut }
{}

/// A fault that ends its connection says so by true alone, and then has no error.
pub fn hanging_up_is_spelled_out()
    ensures { HangingUpIsSpelledOut }
{}

/// An error of QMI has 16 bits, and a status of MBIM 32.
pub fn errors_have_their_size()
    ensures { ErrorsHaveTheirSize }
{}

/// A fault that is answered late says by how many ticks, and then has no error and hangs nobody up.
pub fn late_answers_are_counted()
    ensures { LateAnswersAreCounted }
{}

/// An indication is sent behind requests of a kind or each so many ticks, and not both.
pub fn indications_have_one_time()
    ensures { IndicationsHaveOneTime }
{}
