ghost use Rattle.std.specs.Prelude.{◌≡◌, IfOk, OnOk, map};
ghost use Rattle.modem_profile.specs.Profile.{default_profile};
ghost use Rattle.transparency.specs.Lines.{Adds, Shown, named_view};

use crate::line::{comparison, push_line};
use crate::runs_twice::RunsTwice;
use core_bench::Bench;
use kit_bytes::Octets;
use modem_profile::Profile;
use std::alloc::{AllocError, Global};

/// A request to a modem, and the option of a tool that gives it.
#[derive(Drop)]
pub struct NamedRequest<R> {
    pub option: &'static str,
    pub request: R,
}

/// Runs each request at a simulated modem itself, and in each of the other ways that there are. Gives a
/// line for each, in the same order. What the proxies met is run on the bench too.
pub fn transparency_lines<R: RunsTwice, B: Bench>(
    alloc: Global,
    bench: &mut B,
    requests: Vec<NamedRequest<R>>,
) -> Result<Octets, AllocError>
    ensures { IfOk result (λ lines. Shown R.trial (map named_view requests.items) lines (B.runs bench.old) (B.runs bench.new)) }
{
    let profile = Profile::defaults(alloc)?;
    let lines = lines_at(alloc, bench, &profile, requests);
    drop(profile);
    lines
}

// The lines of requests, each at a modem of this profile.
fn lines_at<R: RunsTwice, B: Bench>(
    alloc: Global,
    bench: &mut B,
    profile: &Profile,
    requests: Vec<NamedRequest<R>>,
) -> Result<Octets, AllocError>
    requires { profile.now ≡ default_profile }
    ensures { IfOk result (λ lines. Shown R.trial (map named_view requests.items) lines (B.runs bench.old) (B.runs bench.new)) }
{
    let mut lines = Octets::new(alloc);
    for named in requests {
        add_line(alloc, bench, profile, named, &mut lines)?;
    }
    Ok(lines)
}

// Runs a request twice, and adds its line.
fn add_line<R: RunsTwice, B: Bench>(
    alloc: Global,
    bench: &mut B,
    profile: &Profile,
    named: NamedRequest<R>,
    lines: &mut Octets,
) -> Result<(), AllocError>
    requires { profile.now ≡ default_profile }
    ensures { OnOk result (Adds R.trial (named_view named) lines.old lines.new (B.runs bench.old) (B.runs bench.new)) }
{
    let NamedRequest { option, request } = named;
    let twice = request.run_twice(alloc, bench, profile)?;
    push_line(lines, option, comparison(&twice), twice.direct.status)?;
    Ok(())
}
