ghost use Rattle.many_history.specs.Laws.{
  DroppedHaveTheBytesOfTheirPlace,
  EachHasItsModemAndTheClock,
  NothingIsLostByChoosing,
  OthersChangeNothing,
  OwnEventsMayCome,
};
ghost use Rattle.many_history.specs.Seated.{FewAreThere, SeatsAreOfDevices, WhoIsThereSits};

/// The law that where some events may come to a proxy of several devices, those of each device may
/// come to a proxy of this device alone.
pub fn own_events_may_come<Known>()
    ensures { OwnEventsMayCome Known }
{}

/// The law of what the proxy of a device meets: its modem's events and the clock's, and of a client
/// that chooses the device all that it said.
pub fn each_device_meets_its_own<Known>()
    ensures modem { EachHasItsModemAndTheClock Known }
    ensures client { NothingIsLostByChoosing }
{}

/// The law that a client notices nothing of what comes to other devices.
pub fn other_devices_change_nothing<Known>()
    ensures { OthersChangeNothing Known }
{}

/// The law that whoever is there for the proxy of a device is there for that of all.
pub fn who_is_there_sits<Known>()
    ensures { WhoIsThereSits Known }
{}

/// The law that no more connections are there than may be.
pub fn few_are_there<Known>()
    ensures { FewAreThere Known }
{}

/// The law that whoever is there is at a device that there is, or hasn't chosen one.
pub fn seats_are_of_devices<Known>()
    ensures { SeatsAreOfDevices Known }
{}

/// The law that the bytes for whom the last event ended are those of the place where it was.
pub fn dropped_have_the_bytes_of_their_place<Known>()
    ensures { DroppedHaveTheBytesOfTheirPlace Known }
{}
