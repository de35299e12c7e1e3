ghost use Rattle.std.specs.Prelude.{◌≡◌, map, option_map};
ghost use Rattle.clap.specs.Words.{found_of, rows_of};
ghost use Rattle.tool_words.specs.Given.{is_given, value_given, word_given, words_given};
ghost use Rattle.tool_words.specs.Sole.{command_given, sole, those_given};

use crate::UsageKind;
use crate::options::ToolOption;
use crate::sole::{Sole, one_command, sole_and};
use clap::ArgMatches;
use clap::parser::ValueSource;

/// Whether the words give the option.
#[tactic(auto, using(crate::proofs::Rows::source_rows), unfolding(crate::specs::Given::is_given))]
pub fn is_given<O: ToolOption>(matches: &ArgMatches<'_>, option: O) -> bool
    ensures { result ≡ is_given O.spelling (rows_of (found_of matches.now)) option }
{
    matches!(
        matches.value_source(option.spelling().name),
        Some(ValueSource::CommandLine)
    )
}

/// The value that the words give to the option.
#[tactic(auto, using(crate::proofs::Rows::value_rows), unfolding(crate::specs::Given::value_given))]
pub fn value_given<'a, O: ToolOption>(matches: &ArgMatches<'a>, option: O) -> Option<&'a str>
    ensures { option_map (λ value. value.now) result ≡ value_given O.spelling (rows_of (found_of matches.now)) option }
{
    matches.get_str(option.spelling().name)
}

/// The word that the words give besides the options.
#[tactic(auto, using(crate::proofs::Rows::value_rows), unfolding(crate::specs::Given::word_given))]
pub fn word_given<'a>(matches: &ArgMatches<'a>, name: &str) -> Option<&'a str>
    ensures { option_map (λ value. value.now) result ≡ word_given name.now (rows_of (found_of matches.now)) }
{
    matches.get_str(name)
}

/// The words of this name that the words give besides the options.
#[tactic(auto, using(crate::proofs::Rows::all_rows), unfolding(crate::specs::Given::words_given))]
pub fn words_given<'m, 'a>(matches: &'m ArgMatches<'a>, name: &str) -> Option<&'m [&'a str]>
    ensures { option_map (λ words. map (λ word. word.now) words.now) result ≡ words_given name.now (rows_of (found_of matches.now)) }
{
    matches.get_raw(name)
}

/// The one of these commands that the words give.
pub fn command_given<O: ToolOption>(
    matches: &ArgMatches<'_>,
    commands: &[O],
) -> Result<O, UsageKind>
    ensures { result ≡ command_given O.spelling (rows_of (found_of matches.now)) commands.now }
{
    one_command(sole_given(matches, commands))
}

fn sole_given<O: ToolOption>(matches: &ArgMatches<'_>, commands: &[O]) -> Sole<O>
    ensures { result ≡ sole (those_given O.spelling (rows_of (found_of matches.now)) commands.now) }
{
    let mut sole = Sole::Nothing;
    for command in commands {
        if is_given(matches, *command) {
            sole = sole_and(sole, *command);
        }
    }
    sole
}
