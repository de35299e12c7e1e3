ghost use Rattle.trace_examples.specs.Shares.{SharesOfQmi, SharesOfMbim};

pub fn a_share_of_qmi_is_passed()
    ensures { SharesOfQmi }
{}

pub fn a_share_of_mbim_is_passed()
    ensures { SharesOfMbim }
{}
