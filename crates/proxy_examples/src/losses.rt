ghost use Rattle.proxy_examples.specs.Losses.{NewRequestsWaitWhole, ReturnInAMessage, LossLeavesNothing};

pub fn new_requests_wait_whole()
    ensures { NewRequestsWaitWhole }
{}

pub fn a_return_leaves_a_message_as_it_is()
    ensures { ReturnInAMessage }
{}

pub fn a_loss_leaves_nothing()
    ensures { LossLeavesNothing }
{}
