ghost use Rattle.proxy_examples.specs.Grants.{OwnIdIsGivenAgain, NobodysIdsAreNotGranted, SuccessIsStatusZero, LongIdIsNotGranted};

pub fn an_own_id_is_given_again()
    ensures { OwnIdIsGivenAgain }
{}

pub fn ids_of_nobody_are_not_granted()
    ensures { NobodysIdsAreNotGranted }
{}

pub fn success_is_status_zero()
    ensures { SuccessIsStatusZero }
{}

pub fn a_long_id_is_not_granted()
    ensures { LongIdIsNotGranted }
{}
