ghost use Rattle.std.specs.Prelude.{◌≡◌, false, None};
ghost use Rattle.core_bench.specs.Held.{face_of, is_held, Keeps, shows_of, nobody_of};

use crate::Bench;
use crate::held::{Held, step};
use hub_io::{Event, Limits};
use kit_bytes::{ConnId, Kind};
use proxy_serving::ProxyCore;
use std::alloc::{AllocError, Global};
use std::mem::replace;

/// A bench that runs cores and tells of no run.
#[derive(Drop)]
pub struct Cores {
    held: Held,
}

impl Cores {
    /// One that holds no core yet.
    pub fn none() -> Self
        ensures { is_held result.held ≡ false }
    {
        Cores { held: Held::None }
    }
}

impl Bench for Cores {
    ghost face = { λ s. face_of s.held };

    ghost is_held = { λ s. is_held s.held };

    ghost keeps = { λ p past s. Keeps p past s.held };

    ghost runs = { λ s. None };

    fn open(
        &mut self,
        alloc: Global,
        kind: Kind,
        limits: &Limits,
        device: &str,
    ) -> Result<(), AllocError> {
        let held = Held::open(alloc, kind, limits, device)?;
        drop(replace(&mut self.held, held));
        Ok(())
    }

    fn step(&mut self, event: Event<'_>) {
        match &mut self.held {
            Held::None => {}
            Held::Qmi(core) => step(core, event),
            Held::Mbim(core) => step(core, event),
        }
    }

    fn queued(&self, conn: ConnId) -> &[u8] {
        match &self.held {
            Held::None => &[],
            Held::Qmi(core) => core.queued(conn),
            Held::Mbim(core) => core.queued(conn),
        }
    }

    fn queued_modem(&self) -> &[u8] {
        match &self.held {
            Held::None => &[],
            Held::Qmi(core) => core.queued_modem(),
            Held::Mbim(core) => core.queued_modem(),
        }
    }

    fn parts(&self, conn: ConnId) -> (&[u8], &[u8]) {
        match &self.held {
            Held::None => (&[], &[]),
            Held::Qmi(core) => core.parts(conn),
            Held::Mbim(core) => core.parts(conn),
        }
    }

    fn modem_parts(&self) -> (&[u8], &[u8]) {
        match &self.held {
            Held::None => (&[], &[]),
            Held::Qmi(core) => core.modem_parts(),
            Held::Mbim(core) => core.modem_parts(),
        }
    }

    fn next_dropped(&mut self) -> Option<ConnId> {
        match &mut self.held {
            Held::None => None,
            Held::Qmi(core) => ProxyCore::next_dropped(core),
            Held::Mbim(core) => ProxyCore::next_dropped(core),
        }
    }

    fn take(&mut self, _alloc: Global) -> Result<Self, AllocError> {
        Ok(replace(self, Cores::none()))
    }

    ghost shows = { λ p past s. shows_of p past s.held };

    ghost nobody = { λ s conn absent none. nobody_of s.held conn absent none };
}
