ghost use Rattle.std.specs.Prelude.{◌≡◌, IfOk, map, true, false, string_bytes};
ghost use Rattle.clap.specs.Words.{app_of, rule_of};
ghost use Rattle.clap.specs.Faults.{is_simple_and_free};
ghost use Rattle.tool_words.specs.Reading.{Reads, option_rule, with_options, with_word, with_words, without_options, word_rule, words_rule};

use crate::options::ToolOption;
use crate::{UsageKind, WordFault};
use clap::error::ErrorKind;
use clap::{Arg, ArgAction, ArgMatches, Command};
use std::alloc::{AllocError, Global};

/// A tool without options. It has no flag for help and none for its version either, since neither
/// text is printed.
pub fn without_options<'a>(alloc: Global, tool: &'a str) -> Command<'a>
    ensures { app_of result ≡ without_options tool.entry.now }
{
    Command::new(alloc, tool).disable_help_flag(true)
}

/// The tool with these options besides.
pub fn add_options<'a, O: ToolOption>(
    alloc: Global,
    command: Command<'a>,
    options: &[O],
) -> Result<Command<'a>, AllocError>
    ensures { IfOk result (λ added. app_of added ≡ with_options O.spelling (app_of command.entry) options.now) }
{
    let mut command = command;
    for option in options {
        let spelling = option.spelling();
        let name: &'a str = spelling.name;
        let arg = option_arg(alloc, name, spelling.letter, spelling.takes_value);
        command = command.arg(arg)?;
    }
    Ok(command)
}

fn option_arg<'a>(alloc: Global, name: &'a str, letter: Option<char>, takes_value: bool) -> Arg<'a>
    ensures rule { rule_of result ≡ option_rule (record { name = name.entry.now; letter = letter; takes_value = takes_value }) }
    ensures own { result.global ≡ false }
{
    let action = if takes_value {
        ArgAction::Set
    } else {
        ArgAction::SetTrue
    };
    let arg = Arg::new(alloc, name).long(name).action(action);
    match letter {
        Some(letter) => arg.short(letter),
        None => arg,
    }
}

/// The tool with a word besides that is no option.
pub fn add_word<'a>(
    alloc: Global,
    command: Command<'a>,
    name: &'a str,
) -> Result<Command<'a>, AllocError>
    ensures { IfOk result (λ added. app_of added ≡ with_word name.entry.now (app_of command.entry)) }
{
    command.arg(word_arg(alloc, name))
}

fn word_arg<'a>(alloc: Global, name: &'a str) -> Arg<'a>
    ensures rule { rule_of result ≡ word_rule name.entry.now }
    ensures own { result.global ≡ false }
{
    Arg::new(alloc, name).action(ArgAction::Set)
}

/// The tool with words besides that are no options, of which there may be any number.
pub fn add_words<'a>(
    alloc: Global,
    command: Command<'a>,
    name: &'a str,
) -> Result<Command<'a>, AllocError>
    ensures { IfOk result (λ added. app_of added ≡ with_words name.entry.now (app_of command.entry)) }
{
    command.arg(words_arg(alloc, name))
}

fn words_arg<'a>(alloc: Global, name: &'a str) -> Arg<'a>
    ensures rule { rule_of result ≡ words_rule name.entry.now }
    ensures own { result.global ≡ false }
{
    Arg::new(alloc, name).action(ArgAction::Append)
}

/// What the words give to a tool's options. The first word is the tool's name.
pub fn read_words<'a>(
    command: Command<'a>,
    words: &'a [String],
) -> Result<ArgMatches<'a>, WordFault>
    requires { is_simple_and_free (app_of command) ≡ true }
    ensures { Reads (app_of command.entry) (map string_bytes words.entry.now) result }
{
    match command.try_get_matches_from(words) {
        Ok(matches) => Ok(matches),
        Err(error) => match error.kind() {
            ErrorKind::OutOfMemory => Err(WordFault::OutOfMemory),
            _ => Err(WordFault::Usage(UsageKind::Words)),
        },
    }
}
