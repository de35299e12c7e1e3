//! Why the lines may be believed.

ghost use Rattle.link_lines.specs.Laws.{EachDirectionIsDissected, MarksComeOff};

/// The law that the lines of each direction of a link that is opened once are those of its stream.
pub fn each_direction_is_dissected()
    ensures { EachDirectionIsDissected }
{}

/// The law that with the marks cut off a marked text is what it was.
pub fn marks_come_off()
    ensures { MarksComeOff }
{}
