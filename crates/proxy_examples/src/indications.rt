ghost use Rattle.proxy_examples.specs.Indications.{IndicationIsOfItsService, TheOpenAreTold, SyncBeginsAnew};

pub fn an_indication_is_of_its_service()
    ensures { IndicationIsOfItsService }
{}

pub fn the_open_are_told_of_a_sync()
    ensures { TheOpenAreTold }
{}

pub fn a_sync_begins_anew()
    ensures { SyncBeginsAnew }
{}
