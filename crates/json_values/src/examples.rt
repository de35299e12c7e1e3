//! Worked examples of values that JSON gives, and of one that doesn't fit.

ghost use Rattle.json_values.specs.Examples.{GivesPin, RefusesWideNumber, GivesBytesAlike};

/// A sequence is given by its fields' names.
pub fn pin_is_given()
    ensures { GivesPin }
{}

/// A number that is too wide is refused, with the path to it.
pub fn wide_number_is_refused()
    ensures { RefusesWideNumber }
{}

/// A list of bytes is given by digits as by its elements.
pub fn bytes_are_given_alike()
    ensures { GivesBytesAlike }
{}
