ghost use Rattle.std.specs.Prelude.{◌≡◌, ◌++◌, IfOk, OnOk};
ghost use Rattle.print_text.specs.Lines.{deeper, front, heading, line, or_ok};

use kit_bytes::Octets;
use std::alloc::{AllocError, Global};

/// Adds a line with a name and a text, behind the spaces of its level.
#[tactic(auto, unfolding(crate::specs::Lines::line))]
pub fn push_line(out: &mut Octets, indent: &[u8], name: &str, text: &[u8]) -> Result<(), AllocError>
    ensures { OnOk result (out.new ≡ out.old ++ line indent.now name.now text.now) }
{
    push_front(out, indent, name)?;
    out.extend_from_slices(text, b"\n")?;
    Ok(())
}

/// Adds what stands before a line's text: its name, behind the spaces of its level.
#[tactic(auto, unfolding(crate::specs::Lines::front))]
pub fn push_front(out: &mut Octets, indent: &[u8], name: &str) -> Result<(), AllocError>
    ensures { OnOk result (out.new ≡ out.old ++ front indent.now name.now) }
{
    out.extend_from_slices(indent, name.as_bytes())?;
    out.extend_from_slice(b": ")?;
    Ok(())
}

/// Adds a line with a name alone, behind the spaces of its level.
#[tactic(auto, unfolding(crate::specs::Lines::heading))]
pub fn push_heading(out: &mut Octets, indent: &[u8], name: &str) -> Result<(), AllocError>
    ensures { OnOk result (out.new ≡ out.old ++ heading indent.now name.now) }
{
    out.extend_from_slices(indent, name.as_bytes())?;
    out.extend_from_slice(b":\n")?;
    Ok(())
}

/// The spaces of the next level: two more.
#[tactic(auto, unfolding(crate::specs::Lines::deeper))]
pub fn deeper(alloc: Global, indent: &[u8]) -> Result<Octets, AllocError>
    ensures { IfOk result (λ more. more ≡ deeper indent.now) }
{
    let mut more = Octets::new(alloc);
    more.extend_from_slices(indent, b"  ")?;
    Ok(more)
}

/// The text of an answer's lines, which is `ok` where there is no line.
pub fn or_ok(mut lines: Octets) -> Result<Octets, AllocError>
    ensures { IfOk result (λ text. text ≡ or_ok lines) }
{
    if lines.as_slice().is_empty() {
        lines.extend_from_slice(b"ok\n")?;
    }
    Ok(lines)
}
