ghost use Rattle.std.specs.Prelude.{◌≡◌, ◌<◌};
ghost use Rattle.rig_runs.specs.Draws.{drawn, next};

/// Numbers that are drawn one after another, by the linear congruential generator of MMIX.
#[derive(Clone, Copy)]
pub(crate) struct Draws {
    x: u64,
}

impl Draws {
    pub(crate) fn from(number: u64) -> Self
        ensures { result.x ≡ number }
    {
        Draws { x: number }
    }

    /// A number below `below`.
    pub(crate) fn below(&mut self, below: u64) -> u64
        requires { 0 < below }
        ensures drawn { result ≡ drawn below (next self.old.x) }
        ensures next { self.new.x ≡ next self.old.x }
        ensures within { result < below }
    {
        self.x = self
            .x
            .wrapping_mul(6_364_136_223_846_793_005)
            .wrapping_add(1_442_695_040_888_963_407);
        (self.x >> 33) % below
    }
}
