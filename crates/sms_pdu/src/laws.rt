ghost use Rattle.sms_pdu.specs.Examples.{LongTextsAreSplit, MessagesAreMade, MessagesAreRead, PartsAreJoined};
ghost use Rattle.sms_pdu.specs.Laws.{TextComesBack};
ghost use Rattle.sms_pdu.specs.Vectors.{AddressesAreRead, CodingsAreRead, EdgesOfParts, HeadersAreRead, TextsAreSent, ValidityIsPassed};

/// Messages that are made of texts.
pub fn messages_are_made()
    ensures { MessagesAreMade }
{}

/// Texts at the edges of one part and of two.
pub fn long_texts_are_split()
    ensures { LongTextsAreSplit }
{}

/// Bytes that are read as a message, and bytes that are refused.
pub fn messages_are_read()
    ensures { MessagesAreRead }
{}

/// Parts of messages, whole or not, in any order.
pub fn parts_are_joined()
    ensures { PartsAreJoined }
{}

/// The law that a text comes back from its messages.
pub fn a_text_comes_back()
    ensures { TextComesBack }
{}

/// Addresses of letters and of digits.
pub fn addresses_are_read()
    ensures { AddressesAreRead }
{}

/// Each form of a validity, which is passed over.
pub fn validity_is_passed()
    ensures { ValidityIsPassed }
{}

/// Each group of codings.
pub fn codings_are_read()
    ensures { CodingsAreRead }
{}

/// Headers that tell of a part, and headers that don't.
pub fn headers_are_read()
    ensures { HeadersAreRead }
{}

/// Texts whose last character just fits in a part, or doesn't.
pub fn edges_of_parts()
    ensures { EdgesOfParts }
{}

/// Texts and numbers at their bounds.
pub fn texts_are_sent()
    ensures { TextsAreSent }
{}
