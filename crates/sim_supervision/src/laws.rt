ghost use Rattle.sim_supervision.specs.Laws.{FailedStopsAloneLeaveModems};

/// The law that supervising a simulated modem leaves only a child whose stop failed.
pub fn failed_stops_alone_leave_modems()
    ensures { FailedStopsAloneLeaveModems }
{}
