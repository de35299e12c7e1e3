ghost use Rattle.std.specs.Prelude.{◌≡◌, IfOk, Bool, List, Option};
ghost use Rattle.clap.specs.Walk.{Row};
ghost use Rattle.clap.specs.Words.{app_of, found_of, rows_of};
ghost use Rattle.tool_words.specs.Answers.{Answers};
ghost use Rattle.tool_words.specs.ModemTools.{modem_tool, modem_tool_asked, needs_device};
ghost use Rattle.tool_words.specs.Values.{Gives};
ghost use Rattle.tool_words.specs.declared.command.ToolCommand.{ToolCommand as Asked};

use crate::given::{command_given, is_given};
use crate::link::{LinkOption, link_options};
use crate::options::ToolOption;
use crate::reader::{add_options, without_options};
use crate::{ToolCommand, UsageKind, WordFault};
use clap::{ArgMatches, Command};
use std::alloc::{AllocError, Global};

/// An option of a tool that says what a modem is asked for.
pub trait ModemCommand: ToolOption {
    ghost asks: { Self → Bool };

    ghost values: { Self → List Row → Option Asked };

    /// Whether a modem is asked at all.
    fn asks(self) -> bool
        ensures { result ≡ asks self };

    /// What the tool is to do, with the values that the words give.
    fn values(self, alloc: Global, matches: &ArgMatches<'_>) -> Result<ToolCommand, WordFault>
        ensures { Gives (values self (rows_of (found_of matches.now))) result };
}

/// A tool that asks a modem, by its name, the options that say how, and its commands.
pub fn modem_tool<'a, S: ToolOption, C: ModemCommand>(
    alloc: Global,
    name: &'a str,
    settings: &[S],
    commands: &[C],
) -> Result<Command<'a>, AllocError>
    ensures { IfOk result (λ tool. app_of tool ≡ modem_tool name.entry.now S.spelling settings.now C.spelling commands.now) }
{
    let tool = add_options(alloc, without_options(alloc, name), link_options())?;
    let tool = add_options(alloc, tool, settings)?;
    let tool = add_options(alloc, tool, commands)?;
    Ok(tool)
}

fn needs_device<C: ModemCommand>(command: Result<C, UsageKind>) -> bool
    ensures { result ≡ needs_device C.asks command }
{
    match command {
        Ok(command) => command.asks(),
        Err(_) => true,
    }
}

/// What the words of such a tool ask for.
#[tactic(auto, unfolding(crate::specs::ModemTools::modem_tool_asked))]
pub fn modem_tool_asked<C: ModemCommand>(
    alloc: Global,
    commands: &[C],
    matches: &ArgMatches<'_>,
) -> Result<ToolCommand, WordFault>
    ensures { Answers (modem_tool_asked C.spelling commands.now C.asks C.values (rows_of (found_of matches.now))) result }
{
    let command = command_given(matches, commands);
    if needs_device(command) && !is_given(matches, LinkOption::Device) {
        return Err(WordFault::Usage(UsageKind::NoDevice));
    }
    match command {
        Ok(command) => command.values(alloc, matches),
        Err(why) => Err(WordFault::Usage(why)),
    }
}
