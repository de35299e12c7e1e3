ghost use Rattle.mbim_services.specs.Laws.{LayoutsAreWellMade, CommandsStandOnce, RequestsHaveBuffers, ListsAreRead, ListsAreWritten};

/// The law that in each layout of the table a list's count stands before it.
pub fn each_layout_is_well_made()
    ensures { LayoutsAreWellMade }
{}

/// The law that no command stands twice in the table.
pub fn each_command_stands_once()
    ensures { CommandsStandOnce }
{}

/// The law that each request has a buffer, of at most 8,204 bytes.
pub fn each_request_has_a_buffer()
    ensures { RequestsHaveBuffers }
{}

/// The law that a list is read from the fields of its buffer, and nothing where the buffer has none.
pub fn lists_are_read()
    ensures { ListsAreRead }
{}

/// The law that the buffer of a list is the encoding of its subscriptions.
pub fn lists_are_written()
    ensures { ListsAreWritten }
{}
