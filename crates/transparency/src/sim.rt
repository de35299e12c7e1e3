use crate::modem::Simulated;
use kit_bytes::Kind;
use modem_profile::Profile;
use sim_mbim::MbimSim;
use sim_qmi::QmiSim;
use std::alloc::{AllocError, Global};

impl Simulated for QmiSim {
    ghost use Rattle.kit_bytes.specs.declared.kind.Kind.TheVariants.{Qmi};
    ghost use Rattle.sim_modem.specs.Sim.{answers};
    ghost use Rattle.sim_qmi.specs.Modem.{machine};

    ghost kind = { Qmi };

    ghost answering = { λ profile. answers (machine profile) };

    fn kind() -> Kind {
        Kind::Qmi
    }

    fn of(alloc: Global, profile: &Profile) -> Result<Self, AllocError> {
        QmiSim::open(alloc, profile)
    }
}

impl Simulated for MbimSim {
    ghost use Rattle.kit_bytes.specs.declared.kind.Kind.TheVariants.{Mbim};
    ghost use Rattle.sim_modem.specs.Sim.{answers};
    ghost use Rattle.sim_mbim.specs.Answers.{machine};

    ghost kind = { Mbim };

    ghost answering = { λ profile. answers (machine profile) };

    fn kind() -> Kind {
        Kind::Mbim
    }

    fn of(alloc: Global, profile: &Profile) -> Result<Self, AllocError> {
        MbimSim::open(alloc, profile)
    }
}
