ghost use Rattle.std.specs.Prelude.{◌≡◌, ◌⊎◌, codes};
ghost use Rattle.kit_io.specs.Causes.{Rose};
ghost use Rattle.file_io.specs.declared.files.Side.TheVariants.{Read};
ghost use Rattle.link_io.specs.Target.{address_of};
ghost use Rattle.pump.specs.Beginning.{GrowBy, Pumps};
ghost use Rattle.pump.specs.Reading.{SendsReads};

use crate::PumpEnd;
use crate::begin::begin;
use file_io::{Files, READ_ROOM, Side};
use kit_io::Failed;
use link_io::{Link, Target};

/// Opens a bridge and then a node, sends the letter `r`, and sends what each read of the node
/// gives, up to the node's end and in at most so many reads.
pub fn pump_read<L: Link, F: Files>(
    link: &mut L,
    files: &mut F,
    bridge: &Target,
    node: &str,
    turns: u64,
) -> PumpEnd
    ensures calls { GrowBy (Pumps (address_of bridge.now) node.now Read (codes "r") (SendsReads turns result) result) (L.calls link.old) (F.calls files.old) (L.calls link.new) (F.calls files.new) }
    ensures link_fault { result ≡ PumpEnd.LinkFault → Rose (L.open_faults link.old) (L.open_faults link.new) ⊎ Rose (L.faults link.old) (L.faults link.new) }
    ensures read_fault { result ≡ PumpEnd.ReadFault → Rose (F.read_faults files.old) (F.read_faults files.new) }
{
    match begin(link, files, bridge, node, Side::Read, b"r") {
        Ok(()) => send_reads(link, files, turns),
        Err(end) => end,
    }
}

// Sends what each read gives.
fn send_reads<L: Link, F: Files>(link: &mut L, files: &mut F, turns: u64) -> PumpEnd
    ensures calls { GrowBy (SendsReads turns result) (L.calls link.old) (F.calls files.old) (L.calls link.new) (F.calls files.new) }
    ensures link_fault { result ≡ PumpEnd.LinkFault → Rose (L.faults link.old) (L.faults link.new) }
    ensures read_fault { result ≡ PumpEnd.ReadFault → Rose (F.read_faults files.old) (F.read_faults files.new) }
{
    let mut buffer = [0u8; READ_ROOM];
    for _ in 0..turns {
        let count = match files.read(&mut buffer) {
            Ok(count) => count,
            Err(Failed) => return PumpEnd::ReadFault,
        };
        if count == 0 {
            return PumpEnd::Ended;
        }
        if let Err(Failed) = link.send(&buffer[..count]) {
            return PumpEnd::LinkFault;
        }
    }
    PumpEnd::TurnsSpent
}
