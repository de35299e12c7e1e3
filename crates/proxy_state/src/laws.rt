ghost use Rattle.proxy_state.specs.Laws.{WaitingAreOfTheHistory, AskingKeepsStanding};

/// The law that for a connection that is there, or was dropped and not asked for yet, those bytes
/// wait that the history says, and that a core still stands for its events once the first of the
/// dropped connections was asked for.
pub fn cores_tell_what_the_history_says<Known, T, S>()
    ensures waiting { WaitingAreOfTheHistory Known T S }
    ensures asked { AskingKeepsStanding Known T S }
{}
