ghost use Rattle.std.specs.Prelude.{◌≡◌, ◌≤◌};
ghost use Rattle.std.specs.Option.{option_copied};
ghost use Rattle.kit_io.specs.Causes.{Rose};
ghost use Rattle.dissect.specs.Tables.{Dissects};
ghost use Rattle.program.specs.Status.{EndsAs, status_of_capture};

use crate::status::Status;
use dissect::dissect_by_tables;
use file_io::Files;
use kit_bytes::{Kind, PathText};
use kit_io::Sink;
use std::alloc::Global;

// Shows the messages of a captured stream in lines.
pub fn dissect_capture<O: Sink, F: Files>(
    alloc: Global,
    kind: Kind,
    tables: Option<&PathText>,
    turns: u64,
    capture: &PathText,
    out: &mut O,
    files: &mut F,
) -> Status
    requires { turns ≤ 1000000000000 }
    ensures dissects { EndsAs status_of_capture result (λ ends. Dissects kind (option_copied tables.entry) turns capture.now
        (record { files = F.calls files.old; out = O.taken out.old })
        (record { files = F.calls files.new; out = O.taken out.new })
        ends) }
    ensures read_fault { result ≡ Status.ReadFault → Rose (F.read_faults files.old) (F.read_faults files.new) }
    ensures write_fault { result ≡ Status.WriteFault → Rose (O.faults out.old) (O.faults out.new) }
    ensures link_fault { ¬ (result ≡ Status.LinkFault) }
    ensures start_fault { ¬ (result ≡ Status.StartFault) }
    ensures hub_fault { ¬ (result ≡ Status.HubFault) }
{
    Status::from(dissect_by_tables(alloc, kind, tables, turns, capture, out, files))
}
