ghost use Rattle.std.specs.Prelude.{◌≡◌, ◌≤◌};
ghost use Rattle.kit_io.specs.Causes.{Rose};
ghost use Rattle.file_io.specs.declared.reading.FileFault.TheVariants.{ReadFault, OutOfMemory};
ghost use Rattle.file_io.specs.Reading.{GrowsByFile, GrowsByReads};

use crate::{Files, READ_ROOM, Side};
use kit_bytes::Octets;
use kit_io::Failed;
use std::alloc::{AllocError, Global};

/// How many bytes a file may have that is read whole.
pub const FILE_LIMIT: usize = 16_777_216;

/// Why a file wasn't read whole.
#[derive(Clone, Copy, PartialEq, Eq)]
pub enum FileFault {
    /// It couldn't be opened, or a read failed.
    ReadFault,
    /// It has more bytes than `FILE_LIMIT`.
    Long,
    OutOfMemory,
}

impl From<Failed> for FileFault {
    ghost from_gives = { λ _ fault. fault ≡ ReadFault };

    fn from(_: Failed) -> Self {
        FileFault::ReadFault
    }
}

impl From<AllocError> for FileFault {
    ghost from_gives = { λ _ fault. fault ≡ OutOfMemory };

    fn from(_: AllocError) -> Self {
        FileFault::OutOfMemory
    }
}

/// The bytes of the file at a path, which is opened once, and closed in the end.
pub fn read_file<F: Files>(alloc: Global, files: &mut F, path: &str) -> Result<Octets, FileFault>
    ensures calls { GrowsByFile path.now (F.calls files.old) result (F.calls files.new) }
    ensures read_fault { result ≡ Err FileFault.ReadFault → Rose (F.read_faults files.old) (F.read_faults files.new) }
    ensures later_read { F.read_faults files.old ≤ F.read_faults files.new }
    ensures later_write { F.write_faults files.old ≤ F.write_faults files.new }
{
    files.open(path, Side::Read)?;
    let read = read_to_end(alloc, files);
    files.close();
    read
}

// The bytes of the open file.
fn read_to_end<F: Files>(alloc: Global, files: &mut F) -> Result<Octets, FileFault>
    ensures calls { GrowsByReads (F.calls files.old) result (F.calls files.new) }
    ensures read_fault { result ≡ Err FileFault.ReadFault → Rose (F.read_faults files.old) (F.read_faults files.new) }
    ensures later_read { F.read_faults files.old ≤ F.read_faults files.new }
    ensures later_write { F.write_faults files.old ≤ F.write_faults files.new }
{
    let mut buffer = [0u8; READ_ROOM];
    let mut bytes = Octets::new(alloc);
    loop {
        let count = files.read(&mut buffer)?;
        if count == 0 {
            return Ok(bytes);
        }
        if count > FILE_LIMIT - bytes.as_slice().len() {
            return Err(FileFault::Long);
        }
        bytes.extend_from_slice(&buffer[..count])?;
    }
}
