ghost use Rattle.sim_mbim.specs.Laws.{AnswersHaveEncodings};

/// The law that what each command is answered with has an encoding, by the limits of a profile and of
/// what commands say.
pub fn answers_have_encodings()
    ensures { AnswersHaveEncodings }
{}
