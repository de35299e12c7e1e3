ghost use Rattle.std.specs.Prelude.{◌≡◌, ◌⊎◌};
ghost use Rattle.kit_io.specs.Causes.{Rose};
ghost use Rattle.program.specs.Pumping.{PumpsTo};
ghost use Rattle.program.specs.Status.{IsOfPump};

use crate::status::Status;
use file_io::Files;
use kit_bytes::PathText;
use link_io::Link;
use pump::pump_node;
use std::alloc::{AllocError, Global};

// Passes on what comes from a device node, or what is to go to it.
pub fn pump_bytes<L: Link, F: Files>(
    alloc: Global,
    read: bool,
    node: &PathText,
    bridge: &PathText,
    link: &mut L,
    files: &mut F,
) -> Status
    ensures pumps { PumpsTo read node.now bridge.now (L.calls link.old) (F.calls files.old) result (L.calls link.new) (F.calls files.new) }
    ensures own { IsOfPump result }
    ensures link_fault { result ≡ Status.LinkFault → Rose (L.open_faults link.old) (L.open_faults link.new) ⊎ Rose (L.faults link.old) (L.faults link.new) }
    ensures read_fault { result ≡ Status.ReadFault → Rose (F.read_faults files.old) (F.read_faults files.new) }
    ensures write_fault { result ≡ Status.WriteFault → Rose (F.write_faults files.old) (F.write_faults files.new) }
{
    match pump_node(alloc, read, node, bridge, link, files) {
        Ok(end) => Status::from(end),
        Err(AllocError) => Status::OutOfMemory,
    }
}
