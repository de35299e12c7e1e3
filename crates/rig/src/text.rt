ghost use Rattle.std.specs.Prelude.{◌≡◌, ◌++◌, IfOk, OnOk, decimal};
ghost use Rattle.rig_runs.specs.Counts.{line, lines_of};
ghost use Rattle.rig.specs.Playing.{summed};

use itoa::Buffer;
use kit_bytes::Octets;
use rig_trace::Counts;
use std::alloc::{AllocError, Global};

/// What a rig came to.
#[derive(Clone, Copy)]
pub(crate) struct Outcome {
    pub counts: Counts,
    /// How many of the clients took the same bytes alone.
    pub equal: u8,
}

/// The eight lines.
pub(crate) fn write(
    alloc: Global,
    clients: u8,
    turns: u32,
    outcome: &Outcome,
) -> Result<Octets, AllocError>
    ensures { IfOk result (λ lines. lines ≡ lines_of (summed clients turns outcome.now)) }
{
    let counts = &outcome.counts;
    let mut lines = Octets::new(alloc);
    add_line(&mut lines, "clients", u64::from(clients))?;
    add_line(&mut lines, "turns", u64::from(turns))?;
    add_line(&mut lines, "forwarded", counts.forwarded)?;
    add_line(&mut lines, "answered", counts.answered)?;
    add_line(&mut lines, "expired", counts.expired)?;
    add_line(&mut lines, "late", counts.late)?;
    add_line(&mut lines, "refused", counts.refused)?;
    lines.extend_from_slice(b"equal ")?;
    add_number(&mut lines, u64::from(outcome.equal))?;
    lines.extend_from_slice(b" of ")?;
    add_number(&mut lines, u64::from(clients))?;
    lines.extend_from_slice(b"\n")?;
    Ok(lines)
}

fn add_line(lines: &mut Octets, name: &str, number: u64) -> Result<(), AllocError>
    ensures { OnOk result (lines.new ≡ lines.old ++ line name.now number) }
{
    lines.extend_from_slice(name.as_bytes())?;
    lines.extend_from_slice(b" ")?;
    add_number(lines, number)?;
    lines.extend_from_slice(b"\n")
}

fn add_number(lines: &mut Octets, number: u64) -> Result<(), AllocError>
    ensures { OnOk result (lines.new ≡ lines.old ++ decimal number) }
{
    let mut digits = Buffer::new();
    lines.extend_from_slice(digits.format(number).as_bytes())
}
