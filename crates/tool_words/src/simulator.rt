ghost use Rattle.std.specs.Prelude.{◌≡◌, IfOk, option_map};
ghost use Rattle.clap.specs.Words.{app_of, found_of, rows_of};
ghost use Rattle.tool_words.specs.Answers.{Answers};
ghost use Rattle.tool_words.specs.Simulator.{simulator_app, simulator_asked, simulator_options, simulator_spelling, simulator_values, starts_in};
ghost use Rattle.tool_words.specs.Values.{Gives, optional};

use crate::defaults::simulator_socket;
use crate::given::value_given;
use crate::options::{OptionSpelling, ToolOption, valued};
use crate::reader::{add_options, without_options};
use crate::values::{kind_or, number_within, path_if_given, path_or, turns};
use crate::{ToolCommand, UsageKind, WordFault};
use clap::{ArgMatches, Command};
use kit_bytes::Kind;
use std::alloc::{AllocError, Global};

/// An option of a simulated modem.
#[derive(Clone, Copy, PartialEq, Eq)]
pub enum SimulatorOption {
    Kind,
    Socket,
    Profile,
    Rules,
    Turns,
    /// How often it may be started, where it is started anew.
    Keep,
}

impl ToolOption for SimulatorOption {
    ghost spelling = { simulator_spelling };

    fn spelling(self) -> OptionSpelling {
        match self {
            SimulatorOption::Kind => valued("kind"),
            SimulatorOption::Socket => valued("socket"),
            SimulatorOption::Profile => valued("profile"),
            SimulatorOption::Rules => valued("rules"),
            SimulatorOption::Turns => valued("turns"),
            SimulatorOption::Keep => valued("keep"),
        }
    }
}

static SIMULATOR_OPTIONS: [SimulatorOption; 6] = [
    SimulatorOption::Kind,
    SimulatorOption::Socket,
    SimulatorOption::Profile,
    SimulatorOption::Rules,
    SimulatorOption::Turns,
    SimulatorOption::Keep,
];

#[tactic(auto, unfolding(crate::specs::Simulator::simulator_options))]
fn options() -> &'static [SimulatorOption]
    ensures { result.now ≡ simulator_options }
{
    SIMULATOR_OPTIONS.as_slice()
}

/// The options of a simulated modem.
pub fn simulator_reader<'a>(alloc: Global) -> Result<Command<'a>, AllocError>
    ensures { IfOk result (λ command. app_of command ≡ simulator_app) }
{
    add_options(alloc, without_options(alloc, "modem-sim"), options())
}

fn starts_if_given(text: Option<&str>) -> Result<Option<u8>, WordFault>
    ensures { Gives (optional starts_in (option_map (λ t. t.now) text.entry)) result }
{
    let Some(text) = text else {
        return Ok(None);
    };
    match number_within(1, 100, text) {
        Some(number) => Ok(Some(number as u8)),
        None => Err(WordFault::Usage(UsageKind::Value)),
    }
}

#[tactic(auto, unfolding(crate::specs::Simulator::simulator_values))]
fn values(alloc: Global, matches: &ArgMatches<'_>) -> Result<ToolCommand, WordFault>
    ensures { Gives (simulator_values (rows_of (found_of matches.now))) result }
{
    let kind = kind_or(Kind::Qmi, value_given(matches, SimulatorOption::Kind))?;
    let turns = turns(value_given(matches, SimulatorOption::Turns))?;
    let keep = starts_if_given(value_given(matches, SimulatorOption::Keep))?;
    let socket = value_given(matches, SimulatorOption::Socket);
    let socket = path_or(alloc, simulator_socket(), socket)?;
    let profile = path_if_given(alloc, value_given(matches, SimulatorOption::Profile))?;
    let rules = path_if_given(alloc, value_given(matches, SimulatorOption::Rules))?;
    Ok(ToolCommand::Simulator {
        kind,
        socket,
        profile,
        rules,
        turns,
        keep,
    })
}

/// What the words of a simulated modem ask for.
#[tactic(auto, unfolding(crate::specs::Simulator::simulator_asked))]
pub fn simulator_asked(alloc: Global, matches: &ArgMatches<'_>) -> Result<ToolCommand, WordFault>
    ensures { Answers (simulator_asked (rows_of (found_of matches.now))) result }
{
    values(alloc, matches)
}
