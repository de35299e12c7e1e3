ghost use Rattle.table_requests.specs.Laws.{AreReadBack};

/// The law that the values of a request by tables are read back from its bytes.
pub fn values_are_read_back()
    ensures { AreReadBack }
{}
