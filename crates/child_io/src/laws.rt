ghost use Rattle.child_io.specs.Laws.{AliveUntilTheEnd, FailedStopsAloneLeaveChildren};

/// The law that a child is alive exactly where a start named it and no later call saw its end.
pub fn alive_until_the_end()
    ensures { AliveUntilTheEnd }
{}

/// The law that once each child that is alive was stopped, only those are left whose stop failed.
pub fn failed_stops_alone_leave_children()
    ensures { FailedStopsAloneLeaveChildren }
{}
