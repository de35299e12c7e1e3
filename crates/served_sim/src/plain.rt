ghost use Rattle.std.specs.Prelude.{◌≡◌};
ghost use Rattle.served_sim.specs.Conduct.{KeepsPlain};

use crate::{Reply, ServedSim};
use kit_bytes::Octets;
use sim_modem::Sim;
use std::alloc::AllocError;

/// A simulated modem that answers at once, hangs nobody up, and to which the clock doesn't matter.
#[derive(Drop)]
pub struct Plain<S: Sim> {
    pub sim: S,
}

impl<S: Sim> ServedSim for Plain<S> {
    type Framing = S::Framing;

    ghost keeps = { λ ticks conduct past plain. KeepsPlain S.keeps conduct past plain.sim };

    ghost by_clock = { ⊥ };

    fn ask(&mut self, message: &[u8]) -> Result<Reply, AllocError> {
        let messages = self.sim.ask(message)?;
        Ok(Reply {
            messages,
            hangs_up: false,
            late: 0,
        })
    }

    fn tick(&mut self) -> Result<Option<Octets>, AllocError> {
        Ok(None)
    }
}
