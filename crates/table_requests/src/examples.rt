//! Worked examples of requests by tables, and of what is refused.

ghost use Rattle.table_requests.specs.Examples.{GivesPin, GivesRegistration, RefusesWideId, RefusesOtherName, RefusesNumber};

/// A request is given by the names of its TLVs and of their fields.
pub fn pin_is_given()
    ensures { GivesPin }
{}

/// TLVs stand in the order of the message.
pub fn registration_is_given()
    ensures { GivesRegistration }
{}

/// A number that is too wide is refused, with the path to it.
pub fn wide_id_is_refused()
    ensures { RefusesWideId }
{}

/// A name that no TLV has is refused.
pub fn other_name_is_refused()
    ensures { RefusesOtherName }
{}

/// What isn't an object is refused.
pub fn number_is_refused()
    ensures { RefusesNumber }
{}
