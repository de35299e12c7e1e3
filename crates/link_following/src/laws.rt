ghost use Rattle.link_following.specs.Following.{MarksComeInOrder};

/// The law that takes which bring marks one after another bring all of them, and no take stands
/// among them that isn't one.
pub fn marks_come_in_order()
    ensures { MarksComeInOrder }
{}
