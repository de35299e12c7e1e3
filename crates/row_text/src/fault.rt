use std::alloc::{AllocError, AllocFailed};
use std::num::ParseIntError;

/// Why a row isn't read or can't be run.
#[derive(Clone, Copy)]
pub struct RowFault {
    pub reason: &'static str,
    /// The line that it is about, where that isn't the row's first one.
    pub number: Option<usize>,
}

impl RowFault {
    pub fn new(reason: &'static str) -> Self {
        RowFault {
            reason,
            number: None,
        }
    }

    /// It is about the line of this number.
    pub fn at(self, number: usize) -> Self {
        RowFault {
            reason: self.reason,
            number: Some(number),
        }
    }
}

impl From<AllocError> for RowFault {
    fn from(_: AllocError) -> Self {
        RowFault::new("out of memory")
    }
}

impl<T: Drop> From<AllocFailed<T>> for RowFault {
    fn from(_: AllocFailed<T>) -> Self {
        RowFault::new("out of memory")
    }
}

impl From<ParseIntError> for RowFault {
    fn from(_: ParseIntError) -> Self {
        RowFault::new("no number")
    }
}
