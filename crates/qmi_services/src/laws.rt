ghost use Rattle.qmi_services.specs.Laws.{AreSpelled, ReadOneWay};

/// The law that a request's TLVs are the inputs of its message in the table, each with bytes that
/// spell its value.
pub fn inputs_are_spelled()
    ensures { AreSpelled }
{}

/// The law that the TLVs of an answer read in one way alone: as a failure with one error, as a success
/// with one list of fields, or not at all.
pub fn answers_read_one_way()
    ensures { ReadOneWay }
{}
