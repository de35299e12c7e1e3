ghost use Rattle.std.specs.Prelude.{◌≡◌, ◌≤◌, [], length, IfOk, OnOk};
ghost use Rattle.sim_modem.specs.Sim.{Answering, answers};
ghost use Rattle.sim_mbim.specs.Answers as mbim;
ghost use Rattle.sim_qmi.specs.Modem as qmi;
ghost use Rattle.sim_tunnel.specs.Carrying.{IsIn, Keeps, State, exchange_at, machine, qmi_answers, state_at};

use crate::answering::answer;
use crate::carrying::{ask, carried};
use kit_bytes::Octets;
use mbim_fragments::{Assembly, Body};
use mbim_frame::{MHead, Mbim};
use modem_profile::Profile;
use sim_mbim::MbimSim;
use sim_modem::Sim;
use sim_qmi::QmiSim;
use std::alloc::{AllocError, Global};
use std::marker::Model;

/// An MBIM modem that is simulated, and that carries messages to a QMI modem that is.
#[derive(Drop)]
pub struct TunnelSim {
    alloc: Global,
    // what has come of a command of which more fragments are due
    begun: Assembly,
    // the last command that came whole
    body: Body,
    mbim: MbimSim,
    qmi: QmiSim,
}

impl Model for TunnelSim {
    ghost use Rattle.sim_tunnel.specs.Carrying as spec;

    ghost Value = { spec.Running };

    ghost view = { λ sim. record { begun = sim.begun; mbim = sim.mbim; qmi = sim.qmi } };
}

impl TunnelSim {
    /// A modem of this profile, of which nothing was asked yet.
    pub fn open(alloc: Global, profile: &Profile) -> Result<Self, AllocError>
        ensures { IfOk result (λ sim. Keeps (answers (machine profile.now)) [] sim) }
    {
        let begun = Assembly::open(alloc)?;
        let body = Body::open(alloc)?;
        let (mbim, qmi) = modems(alloc, profile)?;
        Ok(TunnelSim {
            alloc,
            begun,
            body,
            mbim,
            qmi,
        })
    }

    // What is said to a message.
    fn hear(&mut self, message: &[u8]) -> Result<Octets, AllocError>
        requires { 12 ≤ length message.now }
        ensures text { IfOk result (λ text. (inside : Answering) (s : State) → IsIn inside s self.old → text ≡ (exchange_at inside message.now s).text) }
        ensures state { OnOk result ((inside : Answering) (s : State) → IsIn inside s self.old → IsIn inside (state_at inside message.now s) self.new) }
    {
        let Some(buffer) = carried(&mut self.begun, &mut self.body, message) else {
            return Ok(self.mbim.hear(message)?);
        };
        let refused = self.mbim.hear(message)?;
        if !self.mbim.is_open() {
            return Ok(refused);
        }
        let messages = ask(self.alloc, &mut self.qmi, buffer)?;
        let number = MHead::read(message).number;
        let messages = messages.as_slice();
        Ok(answer(self.alloc, &self.mbim, number, messages)?)
    }
}

// Both modems of this profile.
fn modems(alloc: Global, profile: &Profile) -> Result<(MbimSim, QmiSim), AllocError>
    ensures { IfOk result (λ modems. (modems.0 ≡ mbim.fresh profile.now) × qmi.Keeps (qmi_answers profile.now) [] modems.1) }
{
    let mbim = MbimSim::open(alloc, profile)?;
    match QmiSim::open(alloc, profile) {
        Ok(qmi) => Ok((mbim, qmi)),
        Err(full) => {
            drop(mbim);
            Err(full)
        }
    }
}

impl Sim for TunnelSim {
    ghost use Rattle.sim_tunnel.specs.Carrying.{Keeps};

    type Framing = Mbim;

    ghost keeps = { Keeps };

    fn ask(&mut self, message: &[u8]) -> Result<Octets, AllocError> {
        Ok(self.hear(message)?)
    }
}
