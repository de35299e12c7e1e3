ghost use Rattle.std.specs.Prelude.{◌≡◌, [], ◌∷◌, IfOk, Some};
ghost use Rattle.qmi_values.specs.View.{val_view};
ghost use Rattle.sim_qmi.specs.Step.{success};
ghost use Rattle.sim_qmi.specs.View.{answer_view};

use qmi_values::Val;
use std::alloc::{AllocError, Global};

/// What a request is answered.
#[derive(Drop)]
pub(crate) enum Answer {
    /// This error.
    Failure(u16),
    /// A value for each output of the message, in the order of the table, or None for one that isn't
    /// sent.
    Success(Vec<Option<Val>>),
}

impl Answer {
    /// A success without outputs.
    pub(crate) fn done(alloc: Global) -> Answer
        ensures { answer_view result ≡ success [] }
    {
        Answer::Success(Vec::new(alloc))
    }

    /// A success with one output.
    pub(crate) fn with(alloc: Global, val: Val) -> Result<Answer, AllocError>
        ensures { IfOk result (λ answer. answer_view answer ≡ success (Some (val_view val) ∷ [])) }
    {
        let values = Vec::from_array(alloc, [Some(val)])?;
        Ok(Answer::Success(values))
    }
}
