ghost use Rattle.proxy_solo.specs.Law.{TimeIsTheSame};

/// The law that a client which is alone meets each time that the clock shows to all, whatever the
/// protocol.
pub fn time_goes_on_alone<Known>()
    ensures { TimeIsTheSame Known }
{}
