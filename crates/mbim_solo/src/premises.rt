ghost use Rattle.mbim_solo.specs.Premises.{SecondIsLetAlone, NotLetInTells, FullSpaceTells, FullQueueTells, OldNameTells, ProxyTells};

pub fn the_premises_can_be_met()
    ensures { SecondIsLetAlone }
{}

pub fn who_is_not_let_in_is_told_of_others()
    ensures { NotLetInTells }
{}

pub fn a_full_space_tells_of_others()
    ensures { FullSpaceTells }
{}

pub fn a_full_queue_tells_of_others()
    ensures { FullQueueTells }
{}

pub fn an_old_name_is_not_told_from_its_first_life()
    ensures { OldNameTells }
{}

pub fn the_proxy_itself_is_no_client()
    ensures { ProxyTells }
{}
