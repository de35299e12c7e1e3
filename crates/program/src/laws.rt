ghost use Rattle.program.specs.Laws.{StatusesAgree};

/// The law that a tool whose session ended for want of an answer ends with the status that is compared where
/// its command is run in two ways.
pub fn statuses_agree()
    ensures { StatusesAgree }
{}
