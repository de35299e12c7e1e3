ghost use Rattle.proxy_examples.specs.Limits.{DeadlineIsBounded, ServiceNumbers, ControlNumbers, OutboxLimits};

pub fn a_deadline_is_bounded()
    ensures { DeadlineIsBounded }
{}

pub fn service_numbers_go_round()
    ensures { ServiceNumbers }
{}

pub fn control_numbers_go_round()
    ensures { ControlNumbers }
{}

pub fn so_much_may_wait()
    ensures { OutboxLimits }
{}
