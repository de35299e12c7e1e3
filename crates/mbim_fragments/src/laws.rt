//! Laws of runs and of pieces.
ghost use Rattle.mbim_fragments.specs.Assembling.{AssembliesStandForRuns};
ghost use Rattle.mbim_fragments.specs.Laws.{PiecesAreCut, PiecesAreFilled, PiecesGiveTheBody, RunGoesOn, RunIsAFront};

/// What is kept of any fragments is the last of them: a front of one message, in order, that may go
/// on.
pub fn run_is_a_front()
    ensures { RunIsAFront }
{}

/// Fragments come one after another.
pub fn run_goes_on()
    ensures { RunGoesOn }
{}

/// The pieces of a body, joined in order, give that body.
pub fn pieces_give_the_body()
    ensures { PiecesGiveTheBody }
{}

/// The pieces of a body have as many bytes as they may, and the last of them what remains.
pub fn pieces_are_filled()
    ensures { PiecesAreFilled }
{}

/// In a stream, the pieces of a body are the messages that they were written as.
pub fn pieces_are_cut()
    ensures { PiecesAreCut }
{}

/// What is left of a run goes on with the next fragment as the run itself: it comes to the same, and leaves
/// what is left of the run with it.
pub fn assemblies_stand_for_runs()
    ensures { AssembliesStandForRuns }
{}
