//! Worked examples of values and answers, against their text in JSON.

ghost use Rattle.json_values.specs.JsonExamples.{AddressIsSpelled, BytesHaveDigits, DenialHasItsNumber, KeptIdIsTold, ListIsAnArray, OtherTextHasDigits, PinIsAnObject, ServiceHasItsWord, TextIsEscaped, WordStandsBeside};

/// A sequence is an object, by its fields' names.
pub fn pin_is_an_object()
    ensures { PinIsAnObject }
{}

/// A quotation mark, a reverse solidus and control characters are escaped.
pub fn text_is_escaped()
    ensures { TextIsEscaped }
{}

/// A text that isn't UTF-8 stands by its bytes.
pub fn other_text_has_digits()
    ensures { OtherTextHasDigits }
{}

/// The bytes of a field that `qmicli` shows in hexadecimal stand so.
pub fn bytes_have_digits()
    ensures { BytesHaveDigits }
{}

/// Other lists are arrays.
pub fn list_is_an_array()
    ensures { ListIsAnArray }
{}

/// A word stands beside its number.
pub fn word_stands_beside()
    ensures { WordStandsBeside }
{}

/// So does the word of a service in a list of sequences.
pub fn service_has_its_word()
    ensures { ServiceHasItsWord }
{}

/// An IPv4 address stands beside its number.
pub fn address_is_spelled()
    ensures { AddressIsSpelled }
{}

/// A denial has its number.
pub fn denial_has_its_number()
    ensures { DenialHasItsNumber }
{}

/// A client id that is kept is told.
pub fn kept_id_is_told()
    ensures { KeptIdIsTold }
{}
