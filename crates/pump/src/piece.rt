ghost use Rattle.std.specs.Prelude.{◌≡◌, ◌≤◌, ◌++◌, ℕ, List, length, OnOk};
ghost use Rattle.kit_io.specs.Causes.{HasCause};
ghost use Rattle.pump.specs.Stream.{IsReady, StandsFor};
ghost use Rattle.pump.specs.Writes.{some, writes_behind};
ghost use Rattle.pump.specs.Writing.{WritesAll};

use crate::stream::Stream;
use file_io::Files;
use kit_io::Failed;

/// Writes the next piece of a stream: each message that it ends by itself, and what it begins of
/// the next one behind them.
pub(crate) fn write_piece<F: Files>(
    files: &mut F,
    stream: &mut Stream,
    piece: &[u8],
) -> Result<(), Failed>
    requires ready { IsReady stream.old }
    requires short { length piece.now ≤ 16384 }
    ensures writes { (before : List ℕ) → StandsFor stream.old before → WritesAll (writes_behind before piece.now) (F.calls files.old) result (F.calls files.new) }
    ensures stands { OnOk result ((before : List ℕ) → StandsFor stream.old before → StandsFor stream.new (before ++ piece.now)) }
    ensures ready { OnOk result (IsReady stream.new) }
    ensures cause { HasCause (F.write_faults files.old) (F.write_faults files.new) result }
{
    if !stream.is_framed {
        return write_all(files, piece);
    }
    stream.cutter.push(piece);
    let mut at = 0;
    while let Some(count) = stream.pass() {
        write_all(files, &piece[at..at + count])?;
        at += count;
    }
    stream.begun += piece.len() - at;
    write_all(files, &piece[at..])?;
    Ok(())
}

// Writes all the bytes as one write, in as many calls as it takes.
fn write_all<F: Files>(files: &mut F, bytes: &[u8]) -> Result<(), Failed>
    ensures calls { WritesAll (some bytes.now) (F.calls files.old) result (F.calls files.new) }
    ensures cause { HasCause (F.write_faults files.old) (F.write_faults files.new) result }
{
    let mut rest = bytes;
    while !rest.is_empty() {
        match files.write(rest) {
            Ok(count) => rest = &rest[count..],
            Err(Failed) => return Err(Failed),
        }
    }
    Ok(())
}
