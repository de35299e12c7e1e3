ghost use Rattle.std.specs.Prelude.{◌≡◌, ◌≤◌, true, IfOk, option_and_then, option_map};
ghost use Rattle.clap.specs.Words.{app_of, found_of, rows_of};
ghost use Rattle.tool_words.specs.Answers.{Answers};
ghost use Rattle.tool_words.specs.Proxy.{empty_time, own_options, proxy_app, proxy_asked, proxy_name, proxy_options, proxy_spelling, proxy_values, release_in, settings_in};
ghost use Rattle.tool_words.specs.Values.{Gives, optional, path_in};

use crate::defaults::{bridge_socket, proxy_socket};
use crate::given::{is_given, value_given};
use crate::options::{OptionSpelling, ToolOption, flag, valued};
use crate::reader::{add_options, without_options};
use crate::values::{number_or, number_within, or_fault, path, path_or, turns};
use crate::{ToolCommand, UsageKind, WordFault};
use clap::{ArgMatches, Command};
use kit_bytes::{Kind, PathText};
use std::alloc::{AllocError, Global};

/// The name of the proxy for a kind of modem.
pub fn proxy_name(kind: Kind) -> &'static str
    ensures { result.now ≡ proxy_name kind }
{
    match kind {
        Kind::Qmi => "qmi-proxy",
        Kind::Mbim => "mbim-proxy",
    }
}

/// A proxy that serves a device.
#[derive(Debug, Drop)]
pub struct ProxyTask {
    /// The kind of the modem.
    pub kind: Kind,
    pub device: PathText,
    pub socket: PathText,
    pub bridge: PathText,
    /// After how many milliseconds without a client it ends.
    pub empty: Option<u64>,
    /// Whether it ends once the device is lost.
    pub exit_when_lost: bool,
    /// After how many milliseconds a request expires.
    pub time: u64,
    /// For how many milliseconds a client id is kept whose holder went, before the proxy releases it;
    /// it never does where there is none.
    pub release: Option<u64>,
    /// After how many events it ends.
    pub turns: u64,
}

/// How a proxy serves, whatever it serves.
#[derive(Drop)]
pub struct ProxySettings {
    pub socket: PathText,
    pub bridge: PathText,
    pub empty: Option<u64>,
    pub time: u64,
    pub release: Option<u64>,
    pub turns: u64,
}

/// An option of a proxy.
#[derive(Clone, Copy, PartialEq, Eq)]
pub enum ProxyOption {
    Device,
    Socket,
    Bridge,
    NoExit,
    ExitWhenLost,
    EmptyTimeout,
    Time,
    ReleaseAfter,
    Turns,
}

impl ToolOption for ProxyOption {
    ghost spelling = { proxy_spelling };

    fn spelling(self) -> OptionSpelling {
        match self {
            ProxyOption::Device => valued("device").or_letter('d'),
            ProxyOption::Socket => valued("socket"),
            ProxyOption::Bridge => valued("bridge"),
            ProxyOption::NoExit => flag("no-exit"),
            ProxyOption::ExitWhenLost => flag("exit-when-lost"),
            ProxyOption::EmptyTimeout => valued("empty-timeout"),
            ProxyOption::Time => valued("time"),
            ProxyOption::ReleaseAfter => valued("release-after"),
            ProxyOption::Turns => valued("turns"),
        }
    }
}

static PROXY_OPTIONS: [ProxyOption; 8] = [
    ProxyOption::Device,
    ProxyOption::Socket,
    ProxyOption::Bridge,
    ProxyOption::NoExit,
    ProxyOption::ExitWhenLost,
    ProxyOption::EmptyTimeout,
    ProxyOption::Time,
    ProxyOption::Turns,
];

#[tactic(auto, unfolding(crate::specs::Proxy::proxy_options))]
fn options() -> &'static [ProxyOption]
    ensures { result.now ≡ proxy_options }
{
    PROXY_OPTIONS.as_slice()
}

static QMI_OPTIONS: [ProxyOption; 1] = [ProxyOption::ReleaseAfter];

fn own_options(kind: Kind) -> &'static [ProxyOption]
    ensures { result.now ≡ own_options kind }
{
    match kind {
        Kind::Qmi => QMI_OPTIONS.as_slice(),
        Kind::Mbim => &[],
    }
}

/// The options of a proxy.
pub fn proxy_reader<'a>(alloc: Global, kind: Kind) -> Result<Command<'a>, AllocError>
    ensures { IfOk result (λ command. app_of command ≡ proxy_app kind) }
{
    let name: &'a str = proxy_name(kind);
    let reader = add_options(alloc, without_options(alloc, name), options())?;
    add_options(alloc, reader, own_options(kind))
}

fn modem(alloc: Global, text: Option<&str>) -> Result<PathText, WordFault>
    ensures { Gives (option_and_then path_in (option_map (λ t. t.now) text.entry)) result }
{
    let Some(text) = text else {
        return Err(WordFault::Usage(UsageKind::Value));
    };
    path(alloc, text)
}

fn empty_time(stays: bool, seconds: u64) -> Option<u64>
    requires { seconds ≤ 86400 }
    ensures { result ≡ empty_time stays seconds }
{
    if stays || seconds == 0 {
        None
    } else {
        Some(seconds * 1_000)
    }
}

#[tactic(auto, unfolding(crate::specs::Proxy::release_in))]
fn release_time(text: Option<&str>) -> Result<Option<u64>, WordFault>
    ensures { Gives (optional release_in (option_map (λ t. t.now) text.entry)) result }
{
    let Some(text) = text else {
        return Ok(None);
    };
    let seconds = or_fault(number_within(1, 86_400, text))?;
    Ok(Some(seconds * 1_000))
}

/// How the words say that a proxy for a kind of modem serves.
#[tactic(auto, unfolding(crate::specs::Proxy::settings_in))]
pub fn settings(
    alloc: Global,
    kind: Kind,
    matches: &ArgMatches<'_>,
) -> Result<ProxySettings, WordFault>
    ensures { Gives (settings_in kind (rows_of (found_of matches.now))) result }
{
    let stays = is_given(matches, ProxyOption::NoExit);
    let seconds = value_given(matches, ProxyOption::EmptyTimeout);
    let seconds = number_or(30, 0, 86_400, seconds)?;
    let time = value_given(matches, ProxyOption::Time);
    let time = number_or(30_000, 1, 86_400_000, time)?;
    let release = release_time(value_given(matches, ProxyOption::ReleaseAfter))?;
    let turns = turns(value_given(matches, ProxyOption::Turns))?;
    let socket = value_given(matches, ProxyOption::Socket);
    let socket = path_or(alloc, proxy_socket(kind), socket)?;
    let bridge = value_given(matches, ProxyOption::Bridge);
    let bridge = path_or(alloc, bridge_socket(), bridge)?;
    Ok(ProxySettings {
        socket,
        bridge,
        empty: empty_time(stays, seconds),
        time,
        release,
        turns,
    })
}

#[tactic(auto, unfolding(crate::specs::Proxy::proxy_values))]
fn values(alloc: Global, kind: Kind, matches: &ArgMatches<'_>) -> Result<ToolCommand, WordFault>
    ensures { Gives (proxy_values kind (rows_of (found_of matches.now))) result }
{
    let exit_when_lost = is_given(matches, ProxyOption::ExitWhenLost);
    let settings = settings(alloc, kind, matches)?;
    let device = modem(alloc, value_given(matches, ProxyOption::Device))?;
    Ok(ToolCommand::Proxy(ProxyTask {
        kind,
        device,
        socket: settings.socket,
        bridge: settings.bridge,
        empty: settings.empty,
        exit_when_lost,
        time: settings.time,
        release: settings.release,
        turns: settings.turns,
    }))
}

/// What the words of a proxy ask for.
#[tactic(auto, unfolding(crate::specs::Proxy::proxy_asked))]
pub fn proxy_asked(
    alloc: Global,
    kind: Kind,
    matches: &ArgMatches<'_>,
) -> Result<ToolCommand, WordFault>
    ensures { Answers (proxy_asked kind (rows_of (found_of matches.now))) result }
{
    if !is_given(matches, ProxyOption::Device) {
        return Err(WordFault::Usage(UsageKind::NoDevice));
    }
    values(alloc, kind, matches)
}
