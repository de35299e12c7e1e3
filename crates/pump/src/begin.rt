ghost use Rattle.std.specs.Prelude.{◌≡◌, ◌≢◌, ◌⊎◌, ◌≤◌, Err};
ghost use Rattle.kit_io.specs.Causes.{Rose};
ghost use Rattle.link_io.specs.Target.{address_of};
ghost use Rattle.pump.specs.Beginning.{Begins, GrowBy};

use crate::PumpEnd;
use file_io::{Files, Side};
use kit_io::Failed;
use link_io::{Link, Target};

/// Opens the bridge and then the node, and sends a letter.
pub(crate) fn begin<L: Link, F: Files>(
    link: &mut L,
    files: &mut F,
    bridge: &Target,
    node: &str,
    side: Side,
    letter: &[u8],
) -> Result<(), PumpEnd>
    ensures calls { GrowBy (Begins (address_of bridge.now) node.now side letter.now result) (L.calls link.old) (F.calls files.old) (L.calls link.new) (F.calls files.new) }
    ensures link_fault { result ≡ Err PumpEnd.LinkFault → Rose (L.open_faults link.old) (L.open_faults link.new) ⊎ Rose (L.faults link.old) (L.faults link.new) }
    ensures read_fault { result ≡ Err PumpEnd.ReadFault → Rose (F.read_faults files.old) (F.read_faults files.new) }
    ensures no_write_fault { result ≢ Err PumpEnd.WriteFault }

    ensures later_open { L.open_faults link.old ≤ L.open_faults link.new }
    ensures later { L.faults link.old ≤ L.faults link.new }
    ensures later_read { F.read_faults files.old ≤ F.read_faults files.new }
    ensures later_write { F.write_faults files.old ≤ F.write_faults files.new }
{
    if link.open(bridge).is_err() {
        return Err(PumpEnd::LinkFault);
    }
    if files.open(node, side).is_err() {
        return Err(PumpEnd::ReadFault);
    }
    match link.send(letter) {
        Ok(()) => Ok(()),
        Err(Failed) => Err(PumpEnd::LinkFault),
    }
}
