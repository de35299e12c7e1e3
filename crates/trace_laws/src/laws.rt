ghost use Rattle.trace_laws.specs.Laws.{EachMeetsItsPart, EachTakesTheSame, RowsAreInUse, RequestsAreCounted};

/// The law that in each run of the rig for QMI, with 1 to 64 clients, what each client meets of the
/// trace is what it would meet alone, and that it takes the same bytes, until nothing waits.
pub fn each_client_meets_its_part()
    ensures part { EachMeetsItsPart }
    ensures same { EachTakesTheSame }
{}

/// The law that at every moment of each such run the ledger keeps what the facts say, its rows being
/// the requests in use, and that in each of up to 100,000 turns it counts what the facts of its history
/// say.
pub fn requests_are_counted()
    ensures rows { RowsAreInUse }
    ensures counts { RequestsAreCounted }
{}
