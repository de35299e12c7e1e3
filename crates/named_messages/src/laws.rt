ghost use Rattle.named_messages.specs.Laws.{AreWhatFits};

/// The law that the ranges of numbers and counts that are told are those of the values that fit.
pub fn ranges_are_what_fits()
    ensures { AreWhatFits }
{}
