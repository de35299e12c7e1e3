ghost use Rattle.std.specs.Prelude.{◌≡◌, map, string_bytes};
ghost use Rattle.tool_words.specs.Answers.{Answers};
ghost use Rattle.tool_words.specs.Pump.{is_verbose, pump_asked, pump_if_named, pump_values, reads_named};
ghost use Rattle.tool_words.specs.Values.{Gives};

use crate::values::path;
use crate::{ToolCommand, UsageKind, WordFault};
use std::alloc::Global;

// Whether the word names the pump that reads a node, where it names one.
#[tactic(auto, unfolding(crate::specs::Pump::reads_named))]
fn reads_named(word: &str) -> Option<bool>
    ensures { result ≡ reads_named word.now }
{
    if word == "read" {
        Some(true)
    } else if word == "write" {
        Some(false)
    } else {
        None
    }
}

#[tactic(auto, unfolding(crate::specs::Pump::pump_values))]
fn values(
    alloc: Global,
    read: bool,
    node: &str,
    bridge: &str,
    verbose: bool,
) -> Result<ToolCommand, WordFault>
    ensures { Gives (pump_values read node.now bridge.now verbose) result }
{
    let node = path(alloc, node)?;
    let bridge = path(alloc, bridge)?;
    Ok(ToolCommand::Pump {
        read,
        node,
        bridge,
        verbose,
    })
}

// Whether the word has the pump tell why its node failed.
#[tactic(auto, unfolding(crate::specs::Pump::is_verbose))]
fn is_verbose(word: &str) -> bool
    ensures { result ≡ is_verbose word.now }
{
    word == "-v"
}

// The pump that the word names, between these paths.
fn pump_if_named(
    alloc: Global,
    way: &str,
    node: &str,
    bridge: &str,
    verbose: bool,
) -> Result<ToolCommand, WordFault>
    ensures { Answers (pump_if_named (reads_named way.now) node.now bridge.now verbose) result }
{
    match reads_named(way) {
        Some(read) => values(alloc, read, node, bridge, verbose),
        None => Err(WordFault::Usage(UsageKind::Words)),
    }
}

/// What the words of a pump ask for. They are three besides its name, or four where it is to tell why its
/// node failed, and stand by themselves.
#[tactic(auto, unfolding(crate::specs::Pump::pump_asked))]
pub fn pump_asked(alloc: Global, words: &[String]) -> Result<ToolCommand, WordFault>
    ensures { Answers (pump_asked (map string_bytes words.now)) result }
{
    match words {
        [_, way, node, bridge] => {
            pump_if_named(alloc, way.as_str(), node.as_str(), bridge.as_str(), false)
        }
        [_, way, node, bridge, more] if is_verbose(more.as_str()) => {
            pump_if_named(alloc, way.as_str(), node.as_str(), bridge.as_str(), true)
        }
        _ => Err(WordFault::Usage(UsageKind::Words)),
    }
}
