ghost use Rattle.proxy_examples.specs.Answers.{OpensByItself, OneAnswerEach, LateAnswerGoesToNobody, AnswerInTime, OrphanedNumberStaysInUse, ControlExpiresFirst, TakenBytesWaitNoLonger, StraysChangeNothing};

pub fn the_proxy_opens_by_itself()
    ensures { OpensByItself }
{}

pub fn each_client_gets_its_own_answer()
    ensures { OneAnswerEach }
{}

pub fn a_late_answer_goes_to_nobody()
    ensures { LateAnswerGoesToNobody }
{}

pub fn an_answer_in_time_comes_through()
    ensures { AnswerInTime }
{}

pub fn an_orphaned_number_stays_in_use()
    ensures { OrphanedNumberStaysInUse }
{}

pub fn control_requests_expire_first()
    ensures { ControlExpiresFirst }
{}

pub fn taken_bytes_wait_no_longer()
    ensures { TakenBytesWaitNoLonger }
{}

pub fn strays_change_nothing()
    ensures { StraysChangeNothing }
{}
