ghost use Rattle.hub_io.specs.Record.{EventsOfAppended};

/// The law that the events of a record are those of its parts.
pub fn events_stand_in_order()
    ensures { EventsOfAppended }
{}
