ghost use Rattle.std.specs.Prelude.{◌≡◌, ◌++◌, OnOk};
ghost use Rattle.transparency.specs.Lines.{Compares, line_of};

use kit_bytes::Octets;
use print_text::push_number;
use printed_ends::Twice;
use std::alloc::AllocError;

/// Adds the line of an option.
#[tactic(auto, unfolding(crate::specs::Lines::line_of))]
pub(crate) fn push_line(
    lines: &mut Octets,
    option: &str,
    word: &str,
    status: u8,
) -> Result<(), AllocError>
    ensures { OnOk result (lines.new ≡ lines.old ++ line_of option.now word.now status) }
{
    lines.extend_from_slices(b"--", option.as_bytes())?;
    lines.extend_from_slices(b": ", word.as_bytes())?;
    push_number(lines, ", status ", u64::from(status))?;
    lines.extend_from_slice(b"\n")?;
    Ok(())
}

/// The word for how the two compare.
pub(crate) fn comparison(twice: &Twice) -> &'static str
    ensures { Compares twice.now.direct twice.now.through result.now }
{
    if twice.direct.is(&twice.through) {
        "equal"
    } else {
        "different"
    }
}
