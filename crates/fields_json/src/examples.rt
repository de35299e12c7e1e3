//! Worked examples of answers and their lines, letter for letter.

ghost use Rattle.fields_json.specs.Examples.{DeviceServicesLine, FailureLine, IpConfigurationLine, NoFieldLine, PacketServiceLine, PhonebookLine, RadioStateLine, SmsLine};

/// Words stand beside their numbers.
pub fn words_stand_beside_their_numbers()
    ensures { RadioStateLine }
{}

/// A number that has no word stands alone.
pub fn a_number_without_a_word_stands_alone()
    ensures { PacketServiceLine }
{}

/// An address with a prefix is an object, and one that isn't there is null; counts are left out.
pub fn an_absent_gateway_is_null()
    ensures { IpConfigurationLine }
{}

/// Lists in the structures of a list are arrays in its objects.
pub fn lists_in_a_list_are_arrays()
    ensures { DeviceServicesLine }
{}

/// A text with characters that are escaped, and with others.
pub fn a_name_is_escaped()
    ensures { PhonebookLine }
{}

/// The bytes of a message are digits.
pub fn bytes_are_digits()
    ensures { SmsLine }
{}

/// An answer with no field has its result.
pub fn an_answer_without_fields_is_ok()
    ensures { NoFieldLine }
{}

/// A failure has its status.
pub fn a_failure_has_its_status()
    ensures { FailureLine }
{}
