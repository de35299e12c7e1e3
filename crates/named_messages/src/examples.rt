//! Worked examples of messages' lines.

ghost use Rattle.named_messages.specs.Examples.{ModeIsDescribed, PinIsDescribed, ListIsDescribed};

/// A message takes a number and gives an object.
pub fn mode_is_described()
    ensures { ModeIsDescribed }
{}

/// TLVs are objects with bytes and with a text.
pub fn pin_is_described()
    ensures { PinIsDescribed }
{}

/// A list has objects with signed numbers.
pub fn list_is_described()
    ensures { ListIsDescribed }
{}
