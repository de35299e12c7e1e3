ghost use Rattle.std.specs.Prelude.{◌≡◌, ◌≢◌, ◌⊎◌, [], codes, Ok};
ghost use Rattle.kit_io.specs.Causes.{Rose};
ghost use Rattle.file_io.specs.declared.files.Side.TheVariants.{Write};
ghost use Rattle.link_io.specs.Target.{address_of};
ghost use Rattle.pump.specs.Beginning.{GrowBy, GrowByEnd, Pumps};
ghost use Rattle.pump.specs.Stream.{IsReady, StandsFor};
ghost use Rattle.pump.specs.Writing.{WritesTakes};

use crate::PumpEnd;
use crate::begin::begin;
use crate::piece::write_piece;
use crate::stream::Stream;
use file_io::{Files, Side};
use kit_io::Failed;
use link_io::{Link, TAKE_ROOM, Taken, Target};
use std::alloc::{AllocError, Global};

/// Opens a bridge and then a node, sends the letter `w`, and writes what each take gives, up to
/// the link's end and in at most so many takes: each whole message by itself, and what a take begins
/// of a message behind them. Nothing is done where no memory is there for what begins.
pub fn pump_write<L: Link, F: Files>(
    alloc: Global,
    link: &mut L,
    files: &mut F,
    bridge: &Target,
    node: &str,
    turns: u64,
) -> Result<PumpEnd, AllocError>
    ensures calls { GrowByEnd (λ end. Pumps (address_of bridge.now) node.now Write (codes "w") (WritesTakes turns end) end) (L.calls link.old) (F.calls files.old) result (L.calls link.new) (F.calls files.new) }
    ensures link_fault { result ≡ Ok PumpEnd.LinkFault → Rose (L.open_faults link.old) (L.open_faults link.new) ⊎ Rose (L.faults link.old) (L.faults link.new) }
    ensures read_fault { result ≡ Ok PumpEnd.ReadFault → Rose (F.read_faults files.old) (F.read_faults files.new) }
    ensures write_fault { result ≡ Ok PumpEnd.WriteFault → Rose (F.write_faults files.old) (F.write_faults files.new) }
{
    let mut stream = Stream::open(alloc)?;
    Ok(write_over(link, files, &mut stream, bridge, node, turns))
}

// The same for a stream that is open.
fn write_over<L: Link, F: Files>(
    link: &mut L,
    files: &mut F,
    stream: &mut Stream,
    bridge: &Target,
    node: &str,
    turns: u64,
) -> PumpEnd
    requires ready { IsReady stream.old }
    requires new { StandsFor stream.old [] }
    ensures calls { GrowBy (Pumps (address_of bridge.now) node.now Write (codes "w") (WritesTakes turns result) result) (L.calls link.old) (F.calls files.old) (L.calls link.new) (F.calls files.new) }
    ensures link_fault { result ≡ PumpEnd.LinkFault → Rose (L.open_faults link.old) (L.open_faults link.new) ⊎ Rose (L.faults link.old) (L.faults link.new) }
    ensures read_fault { result ≡ PumpEnd.ReadFault → Rose (F.read_faults files.old) (F.read_faults files.new) }
    ensures write_fault { result ≡ PumpEnd.WriteFault → Rose (F.write_faults files.old) (F.write_faults files.new) }
{
    match begin(link, files, bridge, node, Side::Write, b"w") {
        Ok(()) => write_takes(link, files, stream, turns),
        Err(end) => end,
    }
}

// Writes what each take gives.
fn write_takes<L: Link, F: Files>(
    link: &mut L,
    files: &mut F,
    stream: &mut Stream,
    turns: u64,
) -> PumpEnd
    requires ready { IsReady stream.old }
    requires new { StandsFor stream.old [] }
    ensures calls { GrowBy (WritesTakes turns result) (L.calls link.old) (F.calls files.old) (L.calls link.new) (F.calls files.new) }
    ensures link_fault { result ≡ PumpEnd.LinkFault → Rose (L.faults link.old) (L.faults link.new) }
    ensures no_read_fault { result ≢ PumpEnd.ReadFault }
    ensures write_fault { result ≡ PumpEnd.WriteFault → Rose (F.write_faults files.old) (F.write_faults files.new) }
{
    let mut buffer = [0u8; TAKE_ROOM];
    for _ in 0..turns {
        let count = match link.take(&mut buffer) {
            Ok(Taken::Bytes(count)) => count,
            Ok(Taken::Quiet) => continue,
            Ok(Taken::End) => return PumpEnd::Ended,
            Err(Failed) => return PumpEnd::LinkFault,
        };
        if let Err(Failed) = write_piece(files, stream, &buffer[..count]) {
            return PumpEnd::WriteFault;
        }
    }
    PumpEnd::TurnsSpent
}
