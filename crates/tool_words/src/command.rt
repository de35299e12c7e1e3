ghost use Rattle.std.specs.Prelude.{◌≡◌, IfOk, map, string_bytes};
ghost use Rattle.clap.specs.Words.{app_of, found_of, rows_of};
ghost use Rattle.tool_words.specs.Answers.{Answers, read_by};
ghost use Rattle.tool_words.specs.Command.{command_in, tool_app, tool_asked, tool_named};
ghost use Rattle.tool_words.specs.Rig.{IsWithinLimits};

use crate::dissect::{dissect_asked, dissect_reader};
use crate::mbimcli::{MbimTask, mbimcli_asked, mbimcli_reader};
use crate::proxies::{ProxiesTask, proxies_asked, proxies_reader};
use crate::proxy::{ProxyTask, proxy_asked, proxy_name, proxy_reader};
use crate::pump::pump_asked;
use crate::qmicli::{QmiTask, RequestTask, qmicli_asked, qmicli_reader};
use crate::reader::read_words;
use crate::rig::{rig_asked, rig_reader};
use crate::simulator::{simulator_asked, simulator_reader};
use crate::version::version_asked;
use crate::{UsageKind, WordFault};
use clap::{ArgMatches, Command};
use kit_bytes::{Kind, PathText, ShortText, Text};
use std::alloc::{AllocError, Global};

/// What the program is to do.
#[derive(Debug, Drop)]
pub enum ToolCommand {
    /// Sends a request to a QMI modem and prints its answer.
    Qmicli(QmiTask),
    /// The same with an MBIM modem.
    Mbimcli(MbimTask),
    /// The same with a QMI modem, and a request that the tables of a file describe.
    Request(RequestTask),
    /// Prints the bodies of the short messages that carry a text to a number.
    PduSubmit {
        number: Text,
        text: Text,
        /// The reference that several of them share.
        reference: u8,
    },
    /// Prints the messages that a file describes.
    Describe {
        file: PathText,
        /// The name of the one message whose TLVs are printed, if one is named.
        message: Option<ShortText>,
    },
    /// Serves a modem to the clients of a socket.
    Proxy(ProxyTask),
    /// Serves several modems to the clients of a socket.
    Proxies(ProxiesTask),
    /// Serves a simulated modem to the clients of a socket.
    Simulator {
        kind: Kind,
        socket: PathText,
        /// The file that says what the modem tells of itself, if one is given.
        profile: Option<PathText>,
        /// The file that says what the modem does otherwise than by itself, if one is given.
        rules: Option<PathText>,
        /// After how many events it ends.
        turns: u64,
        /// How often it may be started, each time by a program of its own, if it is started anew at all.
        keep: Option<u8>,
    },
    /// Passes on what comes from a device node or what goes to it.
    Pump {
        /// Whether the node is read, and not written to.
        read: bool,
        node: PathText,
        /// The socket that the other end listens on.
        bridge: PathText,
        /// Whether it tells why its node failed.
        verbose: bool,
    },
    /// Runs a proxy's core with many clients, and with each of them alone.
    Rig {
        kind: Kind,
        clients: u8,
        /// How many turns are drawn, in most of which a message is sent or arrives.
        messages: u32,
        /// The number from which they are drawn.
        number: u64,
    },
    /// Runs each command of the tool of a kind that has no value twice: at a simulated modem itself, and
    /// through a proxy where the tool is alone.
    Transparency {
        kind: Kind,
    },
    /// Shows the messages of a captured stream in lines.
    Dissect {
        kind: Kind,
        /// The file of the messages' descriptions, if one is given.
        tables: Option<PathText>,
        /// After how many reads it ends.
        turns: u64,
        capture: PathText,
    },
    /// Prints the program's version.
    Version,
}

/// A tool that has options, which the first word names.
#[derive(Clone, Copy, PartialEq, Eq)]
enum Tool {
    Qmicli,
    Mbimcli,
    /// The proxy for a kind of modem.
    Proxy(Kind),
    /// One proxy for several QMI modems.
    Proxies,
    /// The simulated modem.
    Simulator,
    /// Many clients before a proxy's core.
    Rig,
    /// The messages of a captured stream.
    Dissect,
}

#[tactic(auto, unfolding(crate::specs::Command::tool_named))]
fn tool_named(word: &str) -> Option<Tool>
    ensures { result ≡ tool_named word.now }
{
    if word == "qmicli" {
        Some(Tool::Qmicli)
    } else if word == "mbimcli" {
        Some(Tool::Mbimcli)
    } else if word == proxy_name(Kind::Qmi) {
        Some(Tool::Proxy(Kind::Qmi))
    } else if word == proxy_name(Kind::Mbim) {
        Some(Tool::Proxy(Kind::Mbim))
    } else if word == "qmi-proxies" {
        Some(Tool::Proxies)
    } else if word == "modem-sim" {
        Some(Tool::Simulator)
    } else if word == "rig" {
        Some(Tool::Rig)
    } else if word == "dissect" {
        Some(Tool::Dissect)
    } else {
        None
    }
}

// The options of a tool.
fn reader<'a>(alloc: Global, tool: Tool) -> Result<Command<'a>, AllocError>
    ensures { IfOk result (λ command. app_of command ≡ tool_app tool) }
{
    match tool {
        Tool::Qmicli => qmicli_reader(alloc),
        Tool::Mbimcli => mbimcli_reader(alloc),
        Tool::Proxy(kind) => proxy_reader(alloc, kind),
        Tool::Proxies => proxies_reader(alloc),
        Tool::Simulator => simulator_reader(alloc),
        Tool::Rig => rig_reader(alloc),
        Tool::Dissect => dissect_reader(alloc),
    }
}

// What the words ask for that give its options so.
fn asked(alloc: Global, tool: Tool, matches: &ArgMatches<'_>) -> Result<ToolCommand, WordFault>
    ensures { Answers (tool_asked tool (rows_of (found_of matches.now))) result }
{
    match tool {
        Tool::Qmicli => qmicli_asked(alloc, matches),
        Tool::Mbimcli => mbimcli_asked(alloc, matches),
        Tool::Proxy(kind) => proxy_asked(alloc, kind, matches),
        Tool::Proxies => proxies_asked(alloc, matches),
        Tool::Simulator => simulator_asked(alloc, matches),
        Tool::Rig => rig_asked(matches),
        Tool::Dissect => dissect_asked(alloc, matches),
    }
}

fn read_tool(alloc: Global, tool: Tool, words: &[String]) -> Result<ToolCommand, WordFault>
    ensures { Answers (read_by (tool_app tool) (tool_asked tool) (map string_bytes words.now)) result }
{
    let matches = read_words(reader(alloc, tool)?, words)?;
    asked(alloc, tool, &matches)
}

#[tactic(auto, unfolding(crate::specs::Command::command_in))]
fn read_command(alloc: Global, words: &[String]) -> Result<ToolCommand, WordFault>
    ensures { Answers (command_in (map string_bytes words.now)) result }
{
    if words.is_empty() {
        return Err(WordFault::Usage(UsageKind::NoTool));
    }
    if words[0].as_str() == "pump" {
        return pump_asked(alloc, words);
    }
    if words[0].as_str() == "version" {
        return version_asked(words);
    }
    match tool_named(words[0].as_str()) {
        Some(tool) => read_tool(alloc, tool, words),
        None => Err(WordFault::Usage(UsageKind::UnknownTool)),
    }
}

/// What the words ask for. The first one names the tool.
pub fn command_of(alloc: Global, words: &[String]) -> Result<ToolCommand, WordFault>
    ensures asked { Answers (command_in (map string_bytes words.now)) result }
    ensures limits { IfOk result IsWithinLimits }
{
    read_command(alloc, words)
}
