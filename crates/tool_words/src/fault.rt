ghost use Rattle.std.specs.Prelude.{◌≡◌};
ghost use Rattle.tool_words.specs.declared.fault.WordFault.TheVariants.{OutOfMemory};

use std::alloc::AllocError;
use thiserror::Error;

/// Why words are refused: the first of these that fits.
#[derive(Clone, Copy, Debug, PartialEq, Eq)]
pub enum UsageKind {
    /// There is no word.
    NoTool,
    /// The first word names no tool.
    UnknownTool,
    /// The words don't read as options of the tool, each at most once.
    Words,
    /// No device is named.
    NoDevice,
    /// No command is given.
    NoCommand,
    /// More than one command is given.
    ManyCommands,
    /// A value doesn't read, or is outside its range.
    Value,
}

/// Why words give no command.
#[derive(Clone, Copy, Debug, PartialEq, Eq, Error)]
pub enum WordFault {
    #[error("the words are refused")]
    Usage(UsageKind),
    #[error("out of memory")]
    OutOfMemory,
}

impl From<AllocError> for WordFault {
    ghost from_gives = { λ _ fault. fault ≡ OutOfMemory };

    fn from(_: AllocError) -> Self {
        WordFault::OutOfMemory
    }
}
