//! Laws of modems that go by rules.

ghost use Rattle.ruled_modem.specs.Laws.{NoRulesChangeNothing, NoRulesHangUp, NoRulesMindNoClock, OthersReachTheModem};

/// The law that a modem without rules answers as the modem itself.
pub fn no_rules_change_nothing()
    ensures { NoRulesChangeNothing }
{}

/// The law that a modem without rules hangs nobody up.
pub fn no_rules_hang_up()
    ensures { NoRulesHangUp }
{}

/// The law that the clock doesn't matter to a modem without rules.
pub fn no_rules_mind_no_clock()
    ensures { NoRulesMindNoClock }
{}

/// The law that a request for whose kind no rule stands reaches the modem, gets its answer
/// alone and at once, and ends no connection.
pub fn others_reach_the_modem()
    ensures { OthersReachTheModem }
{}
