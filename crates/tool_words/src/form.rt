ghost use Rattle.tool_words.specs.Form.{form_of};
ghost use Rattle.tool_words.specs.Values.{Gives};

use crate::{UsageKind, WordFault};

/// How an answer is printed.
#[derive(Clone, Copy, Debug, PartialEq, Eq)]
pub enum AnswerForm {
    /// In lines.
    Lines,
    /// In lines, and behind them in words what the messages say that it holds.
    Decoded,
    /// As one JSON object, on a line.
    Json,
}

/// The form that two options give, which exclude each other.
pub fn form_of(decode: bool, json: bool) -> Result<AnswerForm, WordFault>
    ensures { Gives (form_of decode json) result }
{
    match (decode, json) {
        (false, false) => Ok(AnswerForm::Lines),
        (true, false) => Ok(AnswerForm::Decoded),
        (false, true) => Ok(AnswerForm::Json),
        (true, true) => Err(WordFault::Usage(UsageKind::Value)),
    }
}
