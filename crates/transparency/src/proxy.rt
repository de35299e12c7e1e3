ghost use Rattle.std.specs.Prelude.{◌≡◌, [], IfOk};
ghost use Rattle.rig_stage.specs.Ready.{IsReady};
ghost use Rattle.lone_client.specs.Relay.{through};
ghost use Rattle.transparency.specs.Naming.{named_proxy};
ghost use Rattle.transparency.specs.Peers.{HasRelayed, cast_of, opened};

use crate::modem::Simulated;
use crate::relaying::{begin, relay};
use core_bench::Bench;
use kit_bytes::Octets;
use modem_profile::Profile;
use peer_link::Answerer;
use std::alloc::{AllocError, Global};

/// A core of a proxy, on a bench, before a simulated modem: what a tool finds that is alone there.
#[derive(Drop)]
pub struct ProxyPeer<S: Simulated, B: Bench> {
    alloc: Global,
    profile: Profile,
    device: Octets,
    sim: S,
    bench: B,
    ghost ready: { IsReady (B.is_held bench) (B.face bench) },
}

impl<S: Simulated, B: Bench> ProxyPeer<S, B> {
    /// A core for this device, before a modem of this profile, and no text yet.
    pub fn open(
        alloc: Global,
        profile: &Profile,
        device: &str,
        mut bench: B,
    ) -> Result<Self, AllocError>
        ensures profile { IfOk result (λ peer. peer.profile ≡ profile.now) }
        ensures device { IfOk result (λ peer. peer.device ≡ device.now) }
        ensures met { IfOk result (λ peer. HasRelayed B.keeps B.runs S.keeps (cast_of S.kind peer.device S.Framing.size (S.answering peer.profile)) (opened S.kind peer.device) [] peer.bench peer.sim) }
    {
        let sim = S::of(alloc, profile)?;
        begin(alloc, &mut bench, S::kind(), device)?;
        let device = Octets::from_slice(alloc, device.as_bytes())?;
        let profile = profile.copy(alloc)?;
        Ok(ProxyPeer {
            alloc,
            profile,
            device,
            sim,
            bench,
        })
    }
}

impl<S: Simulated, B: Bench> Answerer for ProxyPeer<S, B> {
    ghost use Rattle.transparency.specs.Named.{proxies_behind};
    ghost use Rattle.transparency.specs.Told.{through_named};

    ghost peer = { λ p. through (cast_of S.kind p.device S.Framing.size (S.answering p.profile)) };

    ghost has_met = { λ texts p. HasRelayed B.keeps B.runs S.keeps (cast_of S.kind p.device S.Framing.size (S.answering p.profile)) (opened S.kind p.device) texts p.bench p.sim };

    ghost named = { λ p calls. named_proxy p.profile p.device calls };

    fn answer(&mut self, text: &[u8]) -> Result<Octets, AllocError> {
        let reply = relay(self.alloc, &mut self.bench, &mut self.sim, text)?;
        Ok(reply)
    }

    ghost named_behind = { λ p calls more. proxies_behind p.profile p.device calls more };

    ghost naming = { λ p q calls more is. through_named S.kind S.Framing.size S.answering p.profile q.profile p.device q.device calls more is };
}
