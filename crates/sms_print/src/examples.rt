//! Worked examples, letter for letter.

ghost use Rattle.sms_print.specs.Examples.{AllArePrinted, BodiesArePrinted, MessagesArePrinted};

/// Messages that are read, and such as aren't.
pub fn messages_are_printed()
    ensures { MessagesArePrinted }
{}

/// Parts of a message among others.
pub fn all_are_printed()
    ensures { AllArePrinted }
{}

/// Bodies that carry a text, as they are sent.
pub fn bodies_are_printed()
    ensures { BodiesArePrinted }
{}
