//! Worked examples of answers and indications, against their text in JSON.

ghost use Rattle.table_requests.specs.AnswerExamples.{AnswerHasItsTlvs, AnswerHasWhatIsKept, BrokenHasNoLine, FailureHasItsError, IndicationHasItsName};

/// An answer has its TLVs by their names, and by their types where the table lacks them or their value
/// doesn't read; of two of a type the first counts.
pub fn answer_has_its_tlvs()
    ensures { AnswerHasItsTlvs }
{}

/// The service and the client id that are kept stand beside them.
pub fn answer_has_what_is_kept()
    ensures { AnswerHasWhatIsKept }
{}

/// A failure has its error, and what else it tells.
pub fn failure_has_its_error()
    ensures { FailureHasItsError }
{}

/// Bytes that aren't whole TLVs have no result.
pub fn broken_has_no_line()
    ensures { BrokenHasNoLine }
{}

/// In an indication the type of the Result TLV is one as any other.
pub fn indication_has_its_name()
    ensures { IndicationHasItsName }
{}
