ghost use Rattle.proxy_examples.specs.ClientIds.{ForeignIdIsRefused, HeldIdIsNotGiven, GrantComesFirst, IndicationComesOnce, SyncAborts, UsersHoldTheirIds, IndicationFindsItsHolder, OnlySuccessGrants};

pub fn a_foreign_id_is_refused()
    ensures { ForeignIdIsRefused }
{}

pub fn a_held_id_is_not_given()
    ensures { HeldIdIsNotGiven }
{}

pub fn a_grant_comes_before_its_answer()
    ensures { GrantComesFirst }
{}

pub fn an_indication_comes_once()
    ensures { IndicationComesOnce }
{}

pub fn a_sync_aborts_what_waits()
    ensures { SyncAborts }
{}

pub fn users_hold_their_ids()
    ensures { UsersHoldTheirIds }
{}

pub fn an_indication_finds_its_holder()
    ensures { IndicationFindsItsHolder }
{}

pub fn only_success_grants_an_id()
    ensures { OnlySuccessGrants }
{}
