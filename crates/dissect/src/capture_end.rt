ghost use Rattle.std.specs.Prelude.{◌≡◌};

use file_io::FileFault;
use message_tables::TableFault;
use std::alloc::AllocError;
use stream_lines::DissectEnd;

/// How dissecting a capture ended, with tables that were looked for before.
#[derive(Clone, Copy, PartialEq, Eq)]
pub enum CaptureEnd {
    /// The capture was shown, until this.
    Shown(DissectEnd),
    /// The file of the tables couldn't be read.
    ReadFault,
    /// The tables aren't read, for this fault or since their file is too long.
    TableFault(Option<TableFault>),
    /// No memory was there for the tables.
    OutOfMemory,
}

impl From<FileFault> for CaptureEnd {
    ghost use Rattle.dissect.specs.Tables.{end_of_file};

    ghost from_gives = { λ fault end. end ≡ end_of_file fault };

    fn from(fault: FileFault) -> Self {
        match fault {
            FileFault::ReadFault => CaptureEnd::ReadFault,
            FileFault::Long => CaptureEnd::TableFault(None),
            FileFault::OutOfMemory => CaptureEnd::OutOfMemory,
        }
    }
}

impl From<TableFault> for CaptureEnd {
    ghost use Rattle.dissect.specs.Tables.{end_of_tables};

    ghost from_gives = { λ fault end. end ≡ end_of_tables fault };

    fn from(fault: TableFault) -> Self {
        match fault {
            TableFault::OutOfMemory => CaptureEnd::OutOfMemory,
            fault => CaptureEnd::TableFault(Some(fault)),
        }
    }
}

impl From<AllocError> for CaptureEnd {
    ghost use Rattle.dissect.specs.declared.capture_end.CaptureEnd.TheVariants.{OutOfMemory};

    ghost from_gives = { λ _ end. end ≡ OutOfMemory };

    fn from(_: AllocError) -> Self {
        CaptureEnd::OutOfMemory
    }
}
