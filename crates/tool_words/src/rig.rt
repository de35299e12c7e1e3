ghost use Rattle.std.specs.Prelude.{◌≡◌, IfOk};
ghost use Rattle.clap.specs.Words.{app_of, found_of, rows_of};
ghost use Rattle.tool_words.specs.Answers.{Answers};
ghost use Rattle.tool_words.specs.Rig.{rig_app, rig_asked, rig_options, rig_spelling, rig_values, transparency_values};
ghost use Rattle.tool_words.specs.Values.{Gives};

use crate::given::{is_given, value_given};
use crate::options::{OptionSpelling, ToolOption, flag, valued};
use crate::reader::{add_options, without_options};
use crate::values::{kind_or, number_or};
use crate::{ToolCommand, WordFault};
use clap::{ArgMatches, Command};
use kit_bytes::Kind;
use std::alloc::{AllocError, Global};

/// An option of a rig.
#[derive(Clone, Copy, PartialEq, Eq)]
pub enum RigOption {
    Kind,
    Clients,
    Messages,
    Number,
    Transparent,
}

impl ToolOption for RigOption {
    ghost spelling = { rig_spelling };

    fn spelling(self) -> OptionSpelling {
        match self {
            RigOption::Kind => valued("kind"),
            RigOption::Clients => valued("clients"),
            RigOption::Messages => valued("messages"),
            RigOption::Number => valued("number"),
            RigOption::Transparent => flag("transparent"),
        }
    }
}

static RIG_OPTIONS: [RigOption; 5] = [
    RigOption::Kind,
    RigOption::Clients,
    RigOption::Messages,
    RigOption::Number,
    RigOption::Transparent,
];

#[tactic(auto, unfolding(crate::specs::Rig::rig_options))]
fn options() -> &'static [RigOption]
    ensures { result.now ≡ rig_options }
{
    RIG_OPTIONS.as_slice()
}

/// The options of a rig.
pub fn rig_reader<'a>(alloc: Global) -> Result<Command<'a>, AllocError>
    ensures { IfOk result (λ command. app_of command ≡ rig_app) }
{
    add_options(alloc, without_options(alloc, "rig"), options())
}

#[tactic(auto, unfolding(crate::specs::Rig::rig_values))]
fn values(matches: &ArgMatches<'_>) -> Result<ToolCommand, WordFault>
    ensures { Gives (rig_values (rows_of (found_of matches.now))) result }
{
    let kind = kind_or(Kind::Qmi, value_given(matches, RigOption::Kind))?;
    let clients = number_or(4, 1, 64, value_given(matches, RigOption::Clients))?;
    let messages = number_or(100, 0, 100_000, value_given(matches, RigOption::Messages))?;
    let number = number_or(0, 0, u64::MAX, value_given(matches, RigOption::Number))?;
    Ok(ToolCommand::Rig {
        kind,
        clients: clients as u8,
        messages: messages as u32,
        number,
    })
}

#[tactic(auto, unfolding(crate::specs::Rig::transparency_values))]
fn transparency(matches: &ArgMatches<'_>) -> Result<ToolCommand, WordFault>
    ensures { Gives (transparency_values (rows_of (found_of matches.now))) result }
{
    let kind = kind_or(Kind::Qmi, value_given(matches, RigOption::Kind))?;
    Ok(ToolCommand::Transparency { kind })
}

/// What the words of a rig ask for.
#[tactic(auto, unfolding(crate::specs::Rig::rig_asked))]
pub fn rig_asked(matches: &ArgMatches<'_>) -> Result<ToolCommand, WordFault>
    ensures { Answers (rig_asked (rows_of (found_of matches.now))) result }
{
    if is_given(matches, RigOption::Transparent) {
        return transparency(matches);
    }
    values(matches)
}
