ghost use Rattle.std.specs.Prelude.{◌≡◌, IfOk, option_map};
ghost use Rattle.clap.specs.Words.{app_of, found_of, rows_of};
ghost use Rattle.tool_words.specs.Answers.{Answers};
ghost use Rattle.tool_words.specs.Dissect.{dissect_app, dissect_asked, dissect_options, dissect_spelling, dissect_values};
ghost use Rattle.tool_words.specs.Values.{Gives};

use crate::given::{value_given, word_given};
use crate::options::{OptionSpelling, ToolOption, valued};
use crate::reader::{add_options, add_word, without_options};
use crate::values::{kind_or, path, path_if_given, turns};
use crate::{ToolCommand, UsageKind, WordFault};
use clap::{ArgMatches, Command};
use kit_bytes::Kind;
use std::alloc::{AllocError, Global};

/// An option of what shows a capture.
#[derive(Clone, Copy, PartialEq, Eq)]
pub enum DissectOption {
    Kind,
    Tables,
    Turns,
}

impl ToolOption for DissectOption {
    ghost spelling = { dissect_spelling };

    fn spelling(self) -> OptionSpelling {
        match self {
            DissectOption::Kind => valued("kind"),
            DissectOption::Tables => valued("tables"),
            DissectOption::Turns => valued("turns"),
        }
    }
}

static DISSECT_OPTIONS: [DissectOption; 3] = [
    DissectOption::Kind,
    DissectOption::Tables,
    DissectOption::Turns,
];

#[tactic(auto, unfolding(crate::specs::Dissect::dissect_options))]
fn options() -> &'static [DissectOption]
    ensures { result.now ≡ dissect_options }
{
    DISSECT_OPTIONS.as_slice()
}

/// The options of what shows a capture, and the capture behind them.
#[tactic(auto, unfolding(crate::specs::Dissect::dissect_app))]
pub fn dissect_reader<'a>(alloc: Global) -> Result<Command<'a>, AllocError>
    ensures { IfOk result (λ command. app_of command ≡ dissect_app) }
{
    let command = add_options(alloc, without_options(alloc, "dissect"), options())?;
    let command = add_word(alloc, command, "capture")?;
    Ok(command)
}

#[tactic(auto, unfolding(crate::specs::Dissect::dissect_values))]
fn values(alloc: Global, capture: &str, matches: &ArgMatches<'_>) -> Result<ToolCommand, WordFault>
    ensures { Gives (dissect_values capture.now (rows_of (found_of matches.now))) result }
{
    let kind = kind_or(Kind::Qmi, value_given(matches, DissectOption::Kind))?;
    let turns = turns(value_given(matches, DissectOption::Turns))?;
    let tables = path_if_given(alloc, value_given(matches, DissectOption::Tables))?;
    let capture = path(alloc, capture)?;
    Ok(ToolCommand::Dissect {
        kind,
        tables,
        turns,
        capture,
    })
}

/// What the words ask for that name a capture.
#[tactic(auto, unfolding(crate::specs::Dissect::dissect_asked))]
pub fn dissect_asked(alloc: Global, matches: &ArgMatches<'_>) -> Result<ToolCommand, WordFault>
    ensures { Answers (dissect_asked (rows_of (found_of matches.now))) result }
{
    match word_given(matches, "capture") {
        Some(capture) => values(alloc, capture, matches),
        None => Err(WordFault::Usage(UsageKind::NoCommand)),
    }
}
