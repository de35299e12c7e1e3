ghost use Rattle.std.specs.Prelude.{OnOk};
ghost use Rattle.kit_io.specs.Causes.{HasCause};
ghost use Rattle.kit_io.specs.Growth.{Grows, GrowsByFront};
ghost use Rattle.version.specs.Line.{version_line};

use kit_io::{Sink, WriteFault, write_all_to};

/// The version, by which packages are named too.
pub const VERSION: &str = "0.1.0";

/// Prints the line that tells it.
#[tactic(auto, unfolding(crate::specs::Line::version_line))]
pub fn print_version<O: Sink>(out: &mut O) -> Result<(), WriteFault>
    ensures prefix { GrowsByFront (O.taken out.old) version_line (O.taken out.new) }
    ensures all { OnOk result (Grows (O.taken out.old) version_line (O.taken out.new)) }
    ensures cause { HasCause (O.faults out.old) (O.faults out.new) result }
{
    write_all_to(out, b"modemkit ")?;
    write_all_to(out, VERSION.as_bytes())?;
    write_all_to(out, b"\n")?;
    Ok(())
}
