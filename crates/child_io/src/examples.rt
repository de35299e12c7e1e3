//! Worked examples of which children are alive after some calls.
ghost use Rattle.child_io.specs.Examples.{StartedChildrenAreAlive, WhoEndedOrStoppedIsNotAlive, EndsThatFailedLeaveTheirChild, ANumberMayBeGivenAgain};

pub fn started_children_are_alive()
    ensures { StartedChildrenAreAlive }
{}

pub fn who_ended_or_stopped_is_not_alive()
    ensures { WhoEndedOrStoppedIsNotAlive }
{}

pub fn ends_that_failed_leave_their_child()
    ensures { EndsThatFailedLeaveTheirChild }
{}

pub fn a_number_may_be_given_again()
    ensures { ANumberMayBeGivenAgain }
{}
