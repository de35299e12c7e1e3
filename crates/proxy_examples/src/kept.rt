ghost use Rattle.proxy_examples.specs.Kept.{KeptForItsTime, ProxyHoldsMeanwhile, AdoptedIsNotReleased, ExpiresAsAnyOther};

pub fn an_id_is_kept_for_its_time()
    ensures { KeptForItsTime }
{}

pub fn the_proxy_holds_it_meanwhile()
    ensures { ProxyHoldsMeanwhile }
{}

pub fn an_adopted_id_is_not_released()
    ensures { AdoptedIsNotReleased }
{}

pub fn an_own_release_expires_as_any_other()
    ensures { ExpiresAsAnyOther }
{}
