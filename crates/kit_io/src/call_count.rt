ghost use Rattle.std.specs.Prelude.{◌≡◌};
ghost use Rattle.kit_io.specs.Counts.{one_more};

use std::marker::Model;

/// How many calls were made on an object. At its type's end the count stands still.
#[derive(Drop)]
pub struct CallCount {
    count: u64,
}

impl Model for CallCount {
    ghost use Rattle.std.specs.Prelude.{ℕ};

    ghost Value = { ℕ };

    ghost view = { λ calls. calls.count };
}

impl CallCount {
    /// No call was made.
    pub fn none() -> Self
        ensures { result ≡ 0 }
    {
        CallCount { count: 0 }
    }

    /// Counts one more call.
    pub fn add(&mut self)
        ensures { self.new ≡ one_more self.old }
    {
        self.count = self.count.saturating_add(1);
    }

    pub fn value(&self) -> u64
        ensures { result ≡ self.now }
    {
        self.count
    }
}
