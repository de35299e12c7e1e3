//! Worked examples, letter for letter.

ghost use Rattle.mbimcli_print.specs.Examples.{DeviceCapsText, DeviceServicesText, EmptyPhonebookText, IpConfigurationText, NoFieldText, PacketServiceText, PhonebookText, RadioStateText, RegisterStateText, SmsText};

/// Numbers and texts, one of them empty.
pub fn capabilities_stand_a_line_each()
    ensures { DeviceCapsText }
{}

/// Numbers with their words.
pub fn a_radio_is_on_or_off()
    ensures { RadioStateText }
{}

/// A number with a word of another table.
pub fn a_modem_is_home()
    ensures { RegisterStateText }
{}

/// A number that has no word.
pub fn an_unknown_state_has_no_word()
    ensures { PacketServiceText }
{}

/// Addresses with prefixes and without, and one that isn't there.
pub fn an_absent_gateway_has_no_line()
    ensures { IpConfigurationText }
{}

/// Lists in the structures of a list, whose counts stand with their names alone.
pub fn lists_in_a_list_stand_deeper()
    ensures { DeviceServicesText }
{}

/// A text with characters that aren't printable ASCII.
pub fn a_name_is_escaped()
    ensures { PhonebookText }
{}

/// A list of no element.
pub fn an_empty_list_has_its_line()
    ensures { EmptyPhonebookText }
{}

/// The bytes of a message.
pub fn bytes_are_hexadecimal()
    ensures { SmsText }
{}

/// An answer with no field.
pub fn an_answer_without_fields_is_ok()
    ensures { NoFieldText }
{}
