ghost use Rattle.std.specs.Prelude.{◌≡◌, ◌≤◌};
ghost use Rattle.kit_io.specs.Causes.{Rose};

use std::marker::Model;

/// A call on the outside failed, and its object's count of faults has risen.
#[derive(Clone, Copy, PartialEq, Eq)]
pub struct Failed;

/// How many calls on an object have failed. At its type's end the count stands still.
#[derive(Drop)]
pub struct Faults {
    count: u64,
}

impl Model for Faults {
    ghost use Rattle.std.specs.Prelude.{ℕ};

    ghost Value = { ℕ };

    ghost view = { λ faults. faults.count };
}

impl Faults {
    /// No call has failed.
    pub fn none() -> Self
        ensures { result ≡ 0 }
    {
        Faults { count: 0 }
    }

    /// Counts one more failure.
    pub fn fail(&mut self) -> Failed
        ensures later { self.old ≤ self.new }
        ensures rose { Rose self.old self.new }
    {
        self.count = self.count.saturating_add(1);
        Failed
    }
}
