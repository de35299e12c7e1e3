ghost use Rattle.std.specs.Prelude.{◌≡◌, ◌⊎◌, Ok};
ghost use Rattle.std.specs.Str.{encode_utf8_all};
ghost use Rattle.kit_io.specs.Causes.{Rose};
ghost use Rattle.link_io.specs.Target.{address_of};
ghost use Rattle.pump.specs.Beginning.{GrowByEnd};
ghost use Rattle.pump.specs.Node.{IsPump, PumpsNode};

use crate::{PumpEnd, pump_read, pump_write};
use file_io::Files;
use kit_bytes::{PathText, Text};
use link_io::{Link, Target};
use std::alloc::{AllocError, Global};

/// How often a pump reads or takes at most.
pub const PUMP_TURNS: u64 = 1_000_000_000_000;

/// Passes on what comes from the device node at a path, where it is to be read, or what is to go to
/// it. The other end is the socket of a bridge, by its path. Nothing is done where no memory is there
/// for that path and for the stream.
pub fn pump_node<L: Link, F: Files>(
    alloc: Global,
    read: bool,
    node: &PathText,
    bridge: &PathText,
    link: &mut L,
    files: &mut F,
) -> Result<PumpEnd, AllocError>
    ensures pumps { PumpsNode read (encode_utf8_all bridge.now) (encode_utf8_all node.now) (L.calls link.old) (F.calls files.old) result (L.calls link.new) (F.calls files.new) }
    ensures link_fault { result ≡ Ok PumpEnd.LinkFault → Rose (L.open_faults link.old) (L.open_faults link.new) ⊎ Rose (L.faults link.old) (L.faults link.new) }
    ensures read_fault { result ≡ Ok PumpEnd.ReadFault → Rose (F.read_faults files.old) (F.read_faults files.new) }
    ensures write_fault { result ≡ Ok PumpEnd.WriteFault → Rose (F.write_faults files.old) (F.write_faults files.new) }
{
    let bridge = Target::Socket(Text::from_str(alloc, bridge.value().as_str())?);
    pump_over(alloc, read, &bridge, node.value().as_str(), link, files)
}

fn pump_over<L: Link, F: Files>(
    alloc: Global,
    read: bool,
    bridge: &Target,
    node: &str,
    link: &mut L,
    files: &mut F,
) -> Result<PumpEnd, AllocError>
    ensures calls { GrowByEnd (IsPump read (address_of bridge.now) node.now) (L.calls link.old) (F.calls files.old) result (L.calls link.new) (F.calls files.new) }
    ensures link_fault { result ≡ Ok PumpEnd.LinkFault → Rose (L.open_faults link.old) (L.open_faults link.new) ⊎ Rose (L.faults link.old) (L.faults link.new) }
    ensures read_fault { result ≡ Ok PumpEnd.ReadFault → Rose (F.read_faults files.old) (F.read_faults files.new) }
    ensures write_fault { result ≡ Ok PumpEnd.WriteFault → Rose (F.write_faults files.old) (F.write_faults files.new) }
{
    if read {
        Ok(pump_read(link, files, bridge, node, PUMP_TURNS))
    } else {
        pump_write(alloc, link, files, bridge, node, PUMP_TURNS)
    }
}
