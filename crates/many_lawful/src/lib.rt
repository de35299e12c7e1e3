//! The law that a proxy of several devices keeps the rules by which it can be served.
#![tactic(auto)]

ghost use Rattle.many_lawful.specs.Law.{ManyProxiesAreLawful};

/// The law that a proxy of several devices can be served over a hub where the protocol of each is
/// orderly, and there is an end to what it asks by itself.
pub fn proxies_of_several_devices_are_lawful<Known>()
    ensures { ManyProxiesAreLawful Known }
{}
