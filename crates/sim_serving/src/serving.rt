ghost use Rattle.std.specs.Prelude.{◌≡◌, ◌≤◌, [], None};
ghost use Rattle.kit_io.specs.Causes.{Rose};
ghost use Rattle.hub_io.specs.Record.{Since};
ghost use Rattle.proxy_serving.specs.Ends.{EndsFor};
ghost use Rattle.proxy_serving.specs.Serving.{never};
ghost use Rattle.served_sim.specs.Conduct.{Conduct};
ghost use Rattle.sim_modem.specs.Sim.{Answering};
ghost use Rattle.sim_serving.specs.Core.{face_of, Keeps, LacksMemory, TakesMemory};
ghost use Rattle.sim_serving.specs.Proxy.{proxy_of, served};
ghost use Rattle.sim_serving.specs.Shows.{shows_of};

use crate::sim_core::SimCore;
use hub_io::{Event, Hub, ServeEnd, Until};
use kit_bytes::ConnId;
use proxy_serving::ProxyCore;
use served_sim::{Plain, ServedSim};
use serving_loop::serve;
use sim_modem::Sim;
use std::alloc::{AllocError, Global};

impl<S: ServedSim> ProxyCore for SimCore<S> {
    ghost face = { λ core. face_of core };

    ghost keeps = { λ p past core. Keeps S.Framing.size S.keeps p past core };

    ghost lacks_memory = { LacksMemory S.by_clock };

    fn step(&mut self, event: Event<'_>) -> Result<(), AllocError> {
        SimCore::step(self, event)?;
        Ok(())
    }

    fn queued(&self, conn: ConnId) -> &[u8] {
        SimCore::queued(self, conn)
    }

    fn queued_modem(&self) -> &[u8] {
        &[]
    }

    fn parts(&self, conn: ConnId) -> (&[u8], &[u8]) {
        (SimCore::queued(self, conn), &[])
    }

    fn modem_parts(&self) -> (&[u8], &[u8]) {
        (&[], &[])
    }

    fn next_dropped(&mut self) -> Option<ConnId> {
        SimCore::next_dropped(self)
    }

    fn waiting_from(&self, from: usize) -> Option<usize> {
        SimCore::waiting_from(self, from)
    }

    fn conn_at(&self, index: usize) -> ConnId {
        self.name_at(index)
    }

    fn present(&self) -> usize {
        SimCore::present(self)
    }

    fn away(&self) -> bool {
        false
    }

    fn time(&self) -> u64 {
        0
    }

    ghost shows = { λ p past core. shows_of S.Framing.size S.keeps p past core };
}

/// Serves the clients of a simulated modem over a hub that is open, and says why it ended.
///
/// Where the hub tells what was done to it: each client was handed the answers to its own requests,
/// each given once all requests before it, of whichever client, had been answered. Each time before
/// the hub was asked for more, all that waited was offered, and just those connections were hung up
/// whose stream went bad or whose sending failed. The serving ended at once where the hub said so or
/// failed, never by itself, and it never opened the hub.
pub fn serve_sim<H: Hub, S: Sim>(alloc: Global, hub: &mut H, sim: S, turns: u64) -> ServeEnd
    requires { (answers : Answering) × S.keeps answers [] sim }
    ensures served { (answers : Answering) → S.keeps answers [] sim →
        Since (H.calls hub.old) (H.calls hub.new) (EndsFor TakesMemory (proxy_of S.Framing.size answers) never turns result) }
    ensures never_empty { Since (H.calls hub.old) (H.calls hub.new) (λ calls. ¬ (result ≡ ServeEnd.Empty)) }
    ensures never_lost { ¬ (result ≡ ServeEnd.Lost) }
    ensures later { H.faults hub.old ≤ H.faults hub.new }
    ensures fault { result ≡ ServeEnd.HubFault → Rose (H.faults hub.old) (H.faults hub.new) }
{
    serve_so(alloc, hub, Plain { sim }, turns)
}

/// The same for a modem that may hang its clients up, answer late, and tell something by the clock.
/// Those connections are hung up too, at whose request it does, which is the last of theirs that it is
/// asked. A late answer goes at its tick, if its client is still there.
pub fn serve_so<H: Hub, S: ServedSim>(alloc: Global, hub: &mut H, sim: S, turns: u64) -> ServeEnd
    requires { (conduct : Conduct) × S.keeps 0 conduct [] sim }
    ensures served { (conduct : Conduct) → S.keeps 0 conduct [] sim →
        Since (H.calls hub.old) (H.calls hub.new) (EndsFor (LacksMemory S.by_clock) (served S.Framing.size conduct) never turns result) }
    ensures never_empty { Since (H.calls hub.old) (H.calls hub.new) (λ calls. ¬ (result ≡ ServeEnd.Empty)) }
    ensures never_lost { ¬ (result ≡ ServeEnd.Lost) }
    ensures later { H.faults hub.old ≤ H.faults hub.new }
    ensures fault { result ≡ ServeEnd.HubFault → Rose (H.faults hub.old) (H.faults hub.new) }
{
    let never = Until {
        empty: None,
        lost: false,
    };
    serve(hub, SimCore::open(alloc, sim), never, turns)
}
