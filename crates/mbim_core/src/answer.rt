ghost use Rattle.std.specs.Prelude.{◌≡◌};
ghost use Rattle.mbim_state.specs.Asked.{is_opening};
ghost use Rattle.mbim_state.specs.Transitions.{is_for};
ghost use Rattle.mbim_core.specs.Answer.{heard_of};

use mbim_state::Asked;

/// Which answer the modem gives.
#[derive(Clone, Copy, PartialEq, Eq)]
pub enum Answer {
    /// A COMMAND_DONE.
    Done,
    /// An OPEN_DONE.
    OpenDone,
    /// A FUNCTION_ERROR in place of either.
    Error,
}

impl Answer {
    /// Whether it can be the answer to what was asked: an OPEN_DONE is for the proxy's own request to
    /// open, a COMMAND_DONE for every other one.
    pub fn is_for(self, asked: &Asked) -> bool
        ensures { result ≡ is_for (heard_of self) asked.now }
    {
        match self {
            Answer::Done => !is_opening(asked),
            Answer::OpenDone => is_opening(asked),
            Answer::Error => true,
        }
    }
}

fn is_opening(asked: &Asked) -> bool
    ensures { result ≡ is_opening asked.now }
{
    matches!(asked, Asked::Open)
}
