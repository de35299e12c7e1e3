ghost use Rattle.number_space.specs.Laws.{InUseUntilFreed, PendingUntilEnded};

/// The law that a number is in use exactly where it was given and has no answer since, and no
/// reset since: one that expired, or whose connection left, stays in use.
pub fn numbers_are_in_use_until_freed<T>()
    ensures { InUseUntilFreed T }
{}

/// The law that a number is waited for exactly where it was given, and no later call freed it, took it
/// as expired or orphaned its connection. That connection, the note and the deadline are those that it
/// was given with.
pub fn numbers_are_pending_until_ended<T>()
    ensures { PendingUntilEnded T }
{}
