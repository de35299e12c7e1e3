ghost use Rattle.trace_examples.specs.MbimLedgers.{NothingIsBrought, TheProxyOpens, ARequestIsAsked};

pub fn what_brings_nothing_is_refused()
    ensures { NothingIsBrought }
{}

pub fn the_proxy_opens()
    ensures { TheProxyOpens }
{}

pub fn a_request_is_asked()
    ensures { ARequestIsAsked }
{}
