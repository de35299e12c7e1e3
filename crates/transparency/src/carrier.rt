//! The simulated MBIM modem that carries messages, as a tool finds it that is alone.

ghost use Rattle.std.specs.Prelude.{[], IfOk};
ghost use Rattle.sim_modem.specs.Sim.{answers};
ghost use Rattle.sim_tunnel.specs.Carrying.{Keeps, machine};

use crate::modem::Simulated;
use kit_bytes::{Kind, Octets};
use mbim_frame::Mbim;
use modem_profile::Profile;
use sim_modem::Sim;
use sim_tunnel::TunnelSim;
use std::alloc::{AllocError, Global};
use std::marker::Model;

/// An MBIM modem that is simulated, and that carries messages to a QMI modem that is.
#[derive(Drop)]
pub(crate) struct Carrier {
    sim: TunnelSim,
}

impl Model for Carrier {
    ghost use Rattle.sim_tunnel.specs.Carrying as spec;

    ghost Value = { spec.Running };

    ghost view = { λ carrier. carrier.sim };
}

impl Sim for Carrier {
    ghost use Rattle.sim_tunnel.specs.Carrying.{Keeps};

    type Framing = Mbim;

    ghost keeps = { Keeps };

    fn ask(&mut self, message: &[u8]) -> Result<Octets, AllocError> {
        Ok(self.sim.ask(message)?)
    }
}

impl Simulated for Carrier {
    ghost use Rattle.kit_bytes.specs.declared.kind.Kind.TheVariants.{Mbim};
    ghost use Rattle.sim_modem.specs.Sim.{answers};
    ghost use Rattle.sim_tunnel.specs.Carrying.{machine};

    ghost kind = { Mbim };

    ghost answering = { λ profile. answers (machine profile) };

    fn kind() -> Kind {
        Kind::Mbim
    }

    fn of(alloc: Global, profile: &Profile) -> Result<Self, AllocError> {
        open(alloc, profile)
    }
}

fn open(alloc: Global, profile: &Profile) -> Result<Carrier, AllocError>
    ensures { IfOk result (Keeps (answers (machine profile.now)) []) }
{
    let sim = TunnelSim::open(alloc, profile)?;
    Ok(Carrier { sim })
}
