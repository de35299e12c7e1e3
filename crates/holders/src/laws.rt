ghost use Rattle.holders.specs.Laws.{HeldUntilEnded};

/// The law that a connection holds an id exactly where the id was granted to it, and it hasn't
/// given it up or left since, and nor were all ids given up.
pub fn ids_are_held_until_ended()
    ensures { HeldUntilEnded }
{}
