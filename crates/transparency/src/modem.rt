ghost use Rattle.std.specs.Prelude.{◌≡◌, [], IfOk};
ghost use Rattle.transparency.specs.Naming.{named_profile};
ghost use Rattle.transparency.specs.Peers.{at_modem};

use crate::asking::{ask_all, joined};
use kit_bytes::{Kind, Octets};
use modem_profile::Profile;
use peer_link::Answerer;
use sim_modem::Sim;
use std::alloc::{AllocError, Global};

/// A modem that is simulated by a profile, of which there is a proxy.
pub trait Simulated: Sim {
    ghost use Rattle.kit_bytes.specs.declared.kind.Kind as spec;
    ghost use Rattle.modem_profile.specs.Profile as profiles;
    ghost use Rattle.sim_modem.specs.Sim.{Answering};

    /// Which protocol it speaks.
    ghost kind: { spec.Kind };

    /// What one of a profile answers.
    ghost answering: { profiles.Profile → Answering };

    /// Which protocol it speaks.
    fn kind() -> Kind
        ensures { result ≡ kind };

    /// A modem of this profile, before any message.
    fn of(alloc: Global, profile: &Profile) -> Result<Self, AllocError>
        ensures { IfOk result (Self.keeps (answering profile.now) []) };
}

/// A simulated modem to which texts come themselves.
#[derive(Drop)]
pub struct ModemPeer<S: Simulated> {
    alloc: Global,
    profile: Profile,
    sim: S,
}

impl<S: Simulated> ModemPeer<S> {
    ghost use Rattle.std.specs.Prelude.{OnOk};
    ghost use Rattle.modem_profile.specs.Limits.{IsWithin};

    /// A modem of this profile, before any text.
    pub fn open(alloc: Global, profile: &Profile) -> Result<Self, AllocError>
        ensures profile { IfOk result (λ peer. peer.profile ≡ profile.now) }
        ensures limits { OnOk result (IsWithin profile.now) }
        ensures met { IfOk result (λ peer. S.keeps (S.answering peer.profile) [] peer.sim) }
    {
        let sim = S::of(alloc, profile)?;
        let profile = profile.copy(alloc)?;
        Ok(ModemPeer {
            alloc,
            profile,
            sim,
        })
    }
}

impl<S: Simulated> Answerer for ModemPeer<S> {
    ghost use Rattle.std.specs.Prelude.{reverse};
    ghost use Rattle.lone_client.specs.Relay.{asked_by};
    ghost use Rattle.transparency.specs.Named.{profiles_behind};
    ghost use Rattle.transparency.specs.Told.{at_modem_named};

    ghost peer = { λ p. at_modem S.Framing.size (S.answering p.profile) };

    ghost has_met = { λ texts p. S.keeps (S.answering p.profile) (asked_by S.Framing.size (reverse texts)) p.sim };

    ghost named = { λ p calls. named_profile p.profile calls };

    fn answer(&mut self, text: &[u8]) -> Result<Octets, AllocError> {
        let messages = ask_all(self.alloc, &mut self.sim, text)?;
        let reply = joined(self.alloc, &messages)?;
        Ok(reply)
    }

    ghost named_behind = { λ p calls more. profiles_behind p.profile calls more };

    ghost naming = { λ p q calls more is. at_modem_named S.Framing.size S.answering p.profile q.profile calls more is };
}
