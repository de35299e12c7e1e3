//! Laws: whom a proxy of several devices drops was dropped by the proxy of its device.
#![tactic(auto)]

ghost use Rattle.many_dropped.specs.Law.{DroppedByTheirDevice, EachIsDroppedOnce};

/// The law that whoever had chosen a device and is ended by an event, but didn't go by itself, was dropped
/// by that device's own proxy in the last event that it met.
pub fn dropped_by_their_device<Known>()
    ensures { DroppedByTheirDevice Known }
{}

/// The law that an event drops no connection twice.
pub fn each_is_dropped_once<Known>()
    ensures { EachIsDroppedOnce Known }
{}
