ghost use Rattle.std.specs.Prelude.{◌≡◌, ◌+◌, ◌*◌, IfOk, IfErr};
ghost use Rattle.mbim_fields.specs.Footprint.{footprint_limit};
ghost use Rattle.mbim_fields.specs.Decoding.{Exceeds};

use crate::FieldFault;
use std::alloc::Global;

// How many bytes the values of one buffer count as at most.
const FOOTPRINT_LIMIT: usize = 16_777_216;

// How many bytes a value counts as, beside those that it has.
pub(crate) const VALUE_FOOTPRINT: usize = 32;

// The memory for the values of one buffer. Pairs may point at the same data, so that a buffer of 60 KB
// can have 25 million values: what they count as is taken from a limit.
#[derive(Drop)]
pub(crate) struct Memory {
    alloc: Global,
    left: usize,
}

impl Memory {
    pub(crate) fn new(alloc: Global) -> Self
        ensures { result.left ≡ footprint_limit }
    {
        Memory {
            alloc,
            left: FOOTPRINT_LIMIT,
        }
    }

    pub(crate) fn alloc(&self) -> Global {
        self.alloc
    }

    // Takes so many bytes from what is left.
    pub(crate) fn take(&mut self, footprint: usize) -> Result<(), FieldFault>
        ensures ok { IfOk result (λ _. self.new.left + footprint ≡ self.old.left) }
        ensures err { IfErr result (Exceeds footprint self.old.left) }
    {
        let Some(left) = self.left.checked_sub(footprint) else {
            return Err(FieldFault::TooLarge);
        };
        self.left = left;
        Ok(())
    }

    // Takes what a list of so many counts as, each of which counts as so many bytes.
    pub(crate) fn take_list(&mut self, count: usize, footprint: usize) -> Result<(), FieldFault>
        ensures ok { IfOk result (λ _. self.new.left + (32 + count * footprint) ≡ self.old.left) }
        ensures err { IfErr result (Exceeds (32 + count * footprint) self.old.left) }
    {
        self.take(VALUE_FOOTPRINT)?;
        let left = self.left;
        let Some(elements) = count.checked_mul(footprint) else {
            return Err(FieldFault::TooLarge);
        };
        let Some(left) = left.checked_sub(elements) else {
            return Err(FieldFault::TooLarge);
        };
        self.left = left;
        Ok(())
    }
}
