ghost use Rattle.std.specs.Prelude.{◌≡◌, IfOk, map};
ghost use Rattle.kit_bytes.specs.declared.Kind.TheVariants.{Mbim, Qmi};
ghost use Rattle.transparency.specs.Lines.{named_view};
ghost use Rattle.transparency.specs.Tools.{ShownOf, plain_requests};

use crate::lines::{NamedRequest, transparency_lines};
use core_bench::Bench;
use kit_bytes::{Kind, Octets};
use std::alloc::{AllocError, Global};
use tool_words::{PlainCommand, mbimcli_commands, qmicli_commands};

/// Runs each command that has no value, of the tool of a kind, at a simulated modem itself and in each of
/// the other ways that there are. Gives a line for each, in the order of the manual: it prints the same.
pub fn tool_lines<B: Bench>(alloc: Global, bench: &mut B, kind: Kind) -> Result<Octets, AllocError>
    ensures { IfOk result (λ lines. ShownOf kind lines (B.runs bench.old) (B.runs bench.new)) }
{
    match kind {
        Kind::Qmi => qmi_lines(alloc, bench),
        Kind::Mbim => mbim_lines(alloc, bench),
    }
}

fn qmi_lines<B: Bench>(alloc: Global, bench: &mut B) -> Result<Octets, AllocError>
    ensures { IfOk result (λ lines. ShownOf Qmi lines (B.runs bench.old) (B.runs bench.new)) }
{
    let requests = plain_requests(alloc, qmicli_commands())?;
    let lines = transparency_lines(alloc, bench, requests)?;
    Ok(lines)
}

fn mbim_lines<B: Bench>(alloc: Global, bench: &mut B) -> Result<Octets, AllocError>
    ensures { IfOk result (λ lines. ShownOf Mbim lines (B.runs bench.old) (B.runs bench.new)) }
{
    let requests = plain_requests(alloc, mbimcli_commands())?;
    let lines = transparency_lines(alloc, bench, requests)?;
    Ok(lines)
}

// The requests of the commands that have no value, in the same order.
#[tactic(auto, unfolding(crate::specs::Tools::plain_requests))]
fn plain_requests<C: PlainCommand>(
    alloc: Global,
    commands: &[C],
) -> Result<Vec<NamedRequest<C::Request>>, AllocError>
    ensures { IfOk result (λ requests. map named_view requests.items ≡ plain_requests C.line commands.now) }
{
    let mut requests = Vec::new(alloc);
    for command in commands {
        if let Some(request) = command.plain_request() {
            let option = command.option_name();
            requests.push(NamedRequest { option, request })?;
        }
    }
    Ok(requests)
}
