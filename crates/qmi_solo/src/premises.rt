ghost use Rattle.qmi_solo.specs.Premises.{SecondIsLetAlone, ForeignIdTells, TakenIdTells, NotLetInTells, FullSpaceTells, OldNameTells, LongComesInTwo};

pub fn the_premises_can_be_met()
    ensures { SecondIsLetAlone }
{}

pub fn a_foreign_id_tells_of_others()
    ensures { ForeignIdTells }
{}

pub fn a_taken_id_tells_of_others()
    ensures { TakenIdTells }
{}

pub fn who_is_not_let_in_is_told_of_others()
    ensures { NotLetInTells }
{}

pub fn a_full_space_tells_of_others()
    ensures { FullSpaceTells }
{}

pub fn an_old_name_is_not_told_from_its_first_life()
    ensures { OldNameTells }
{}

pub fn a_long_message_comes_in_two_pieces()
    ensures { LongComesInTwo }
{}
