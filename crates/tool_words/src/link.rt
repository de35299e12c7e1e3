ghost use Rattle.std.specs.Prelude.{◌≡◌, option_map};
ghost use Rattle.clap.specs.Words.{found_of, rows_of};
ghost use Rattle.tool_words.specs.Link.{device_in, link_in, link_options, link_spelling, timeout_in};
ghost use Rattle.tool_words.specs.Values.{Gives};

use crate::WordFault;
use crate::defaults::{bridge_socket, proxy_socket};
use crate::given::{is_given, value_given};
use crate::options::{OptionSpelling, ToolOption, flag, valued};
use crate::values::{number_or, path_if_given, path_or};
use clap::ArgMatches;
use kit_bytes::{Kind, PathText};
use std::alloc::Global;

/// An option that says how a tool reaches its modem, how long it waits for it, or whether it tells what goes over its link.
#[derive(Clone, Copy, PartialEq, Eq)]
pub enum LinkOption {
    Device,
    DeviceOpenProxy,
    Socket,
    Bridge,
    Timeout,
    Verbose,
}

static LINK_OPTIONS: [LinkOption; 6] = [
    LinkOption::Device,
    LinkOption::DeviceOpenProxy,
    LinkOption::Socket,
    LinkOption::Bridge,
    LinkOption::Timeout,
    LinkOption::Verbose,
];

impl ToolOption for LinkOption {
    ghost spelling = { link_spelling };

    fn spelling(self) -> OptionSpelling {
        match self {
            LinkOption::Device => valued("device").or_letter('d'),
            LinkOption::DeviceOpenProxy => flag("device-open-proxy").or_letter('p'),
            LinkOption::Socket => valued("socket"),
            LinkOption::Bridge => valued("bridge"),
            LinkOption::Timeout => valued("timeout"),
            LinkOption::Verbose => flag("verbose").or_letter('v'),
        }
    }
}

/// All of them.
#[tactic(auto, unfolding(crate::specs::Link::link_options))]
pub fn link_options() -> &'static [LinkOption]
    ensures { result.now ≡ link_options }
{
    LINK_OPTIONS.as_slice()
}

/// How a tool reaches the device of its modem, and how long it waits there, with defaults filled in.
#[derive(Debug, Drop)]
pub struct LinkSettings {
    /// The kind of the modem.
    pub kind: Kind,
    /// Whether the device is reached through the proxy behind the socket.
    pub proxied: bool,
    pub socket: PathText,
    pub bridge: PathText,
    /// For how many seconds an answer is waited for.
    pub timeout: u16,
    /// Whether the tool tells what goes over its link.
    pub verbose: bool,
}

fn timeout(text: Option<&str>) -> Result<u16, WordFault>
    ensures { Gives (timeout_in (option_map (λ t. t.now) text.entry)) result }
{
    let seconds = number_or(30, 1, 600, text)?;
    Ok(seconds as u16)
}

/// The device that the words name, if they name one.
#[tactic(auto, unfolding(crate::specs::Link::device_in))]
pub fn device_given(alloc: Global, matches: &ArgMatches<'_>) -> Result<Option<PathText>, WordFault>
    ensures { Gives (device_in (rows_of (found_of matches.now))) result }
{
    path_if_given(alloc, value_given(matches, LinkOption::Device))
}

/// The settings that the words give to a tool for modems of this kind.
#[tactic(auto, unfolding(crate::specs::Link::link_in))]
pub fn link_given(
    alloc: Global,
    kind: Kind,
    matches: &ArgMatches<'_>,
) -> Result<LinkSettings, WordFault>
    ensures { Gives (link_in kind (rows_of (found_of matches.now))) result }
{
    let proxied = is_given(matches, LinkOption::DeviceOpenProxy);
    let socket = value_given(matches, LinkOption::Socket);
    let socket = path_or(alloc, proxy_socket(kind), socket)?;
    let bridge = value_given(matches, LinkOption::Bridge);
    let bridge = path_or(alloc, bridge_socket(), bridge)?;
    let timeout = timeout(value_given(matches, LinkOption::Timeout))?;
    let verbose = is_given(matches, LinkOption::Verbose);
    Ok(LinkSettings {
        kind,
        proxied,
        socket,
        bridge,
        timeout,
        verbose,
    })
}
