ghost use Rattle.std.specs.Prelude.{◌≡◌, IfOk, map};
ghost use Rattle.clap.specs.Words.{app_of, found_of, rows_of};
ghost use Rattle.tool_words.specs.Answers.{Answers};
ghost use Rattle.tool_words.specs.Proxies.{proxies_app, proxies_asked, proxies_options, proxies_values};
ghost use Rattle.tool_words.specs.Values.{Gives};

use crate::given::words_given;
use crate::paths::{PathTexts, devices};
use crate::proxy::{ProxyOption, settings};
use crate::reader::{add_options, add_words, without_options};
use crate::{ToolCommand, UsageKind, WordFault};
use clap::{ArgMatches, Command};
use kit_bytes::{Kind, PathText};
use std::alloc::{AllocError, Global};

/// One proxy that serves several QMI devices, each to those clients that open it.
#[derive(Debug, Drop)]
pub struct ProxiesTask {
    /// Which ones.
    pub devices: PathTexts,
    pub socket: PathText,
    /// What the bridges' sockets are named after.
    pub bridge: PathText,
    /// After how many milliseconds without a client it ends.
    pub empty: Option<u64>,
    /// After how many milliseconds a request expires.
    pub time: u64,
    /// For how many milliseconds a client id is kept whose holder went, before the proxy releases it;
    /// it never does where there is none.
    pub release: Option<u64>,
    /// After how many events it ends.
    pub turns: u64,
}

static PROXIES_OPTIONS: [ProxyOption; 7] = [
    ProxyOption::Socket,
    ProxyOption::Bridge,
    ProxyOption::NoExit,
    ProxyOption::EmptyTimeout,
    ProxyOption::Time,
    ProxyOption::ReleaseAfter,
    ProxyOption::Turns,
];

#[tactic(auto, unfolding(crate::specs::Proxies::proxies_options))]
fn options() -> &'static [ProxyOption]
    ensures { result.now ≡ proxies_options }
{
    PROXIES_OPTIONS.as_slice()
}

/// The options of a proxy of several devices, and the devices behind them.
#[tactic(auto, unfolding(crate::specs::Proxies::proxies_app))]
pub fn proxies_reader<'a>(alloc: Global) -> Result<Command<'a>, AllocError>
    ensures { IfOk result (λ command. app_of command ≡ proxies_app) }
{
    let reader = add_options(alloc, without_options(alloc, "qmi-proxies"), options())?;
    let command = add_words(alloc, reader, "devices")?;
    Ok(command)
}

#[tactic(auto, unfolding(crate::specs::Proxies::proxies_values))]
fn values(alloc: Global, texts: &[&str], matches: &ArgMatches<'_>) -> Result<ToolCommand, WordFault>
    ensures { Gives (proxies_values (map (λ text. text.now) texts.now) (rows_of (found_of matches.now))) result }
{
    let settings = settings(alloc, Kind::Qmi, matches)?;
    let devices = devices(alloc, texts)?;
    Ok(ToolCommand::Proxies(ProxiesTask {
        devices,
        socket: settings.socket,
        bridge: settings.bridge,
        empty: settings.empty,
        time: settings.time,
        release: settings.release,
        turns: settings.turns,
    }))
}

/// What the words of a proxy of several devices ask for.
#[tactic(auto, unfolding(crate::specs::Proxies::proxies_asked))]
pub fn proxies_asked(alloc: Global, matches: &ArgMatches<'_>) -> Result<ToolCommand, WordFault>
    ensures { Answers (proxies_asked (rows_of (found_of matches.now))) result }
{
    match words_given(matches, "devices") {
        Some(texts) => values(alloc, texts, matches),
        None => Err(WordFault::Usage(UsageKind::NoDevice)),
    }
}
