ghost use Rattle.std.specs.Prelude.{◌≡◌};
ghost use Rattle.kit_io.specs.Causes.{Rose};
ghost use Rattle.program.specs.Telling.{TellsVersion};

use crate::status::Status;
use kit_io::{Sink, WriteFault};
use version::print_version;

// Prints the program's version.
pub fn tell_version<O: Sink>(out: &mut O) -> Status
    ensures tells { TellsVersion (O.taken out.old) result (O.taken out.new) }
    ensures write_fault { result ≡ Status.WriteFault → Rose (O.faults out.old) (O.faults out.new) }
    ensures link_fault { ¬ (result ≡ Status.LinkFault) }
    ensures start_fault { ¬ (result ≡ Status.StartFault) }
    ensures hub_fault { ¬ (result ≡ Status.HubFault) }
    ensures read_fault { ¬ (result ≡ Status.ReadFault) }
{
    match print_version(out) {
        Ok(()) => Status::Done,
        Err(WriteFault) => Status::WriteFault,
    }
}
