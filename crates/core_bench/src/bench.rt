ghost use Rattle.std.specs.Prelude.{◌≡◌, ◌++◌, ℕ, Bool, true, false, List, [], ◌∷◌, Option, IfOk, OnOk, OnErr};
ghost use Rattle.proxy_history.specs.Events as history;
ghost use Rattle.proxy_history.specs.Events.{greatest_after};
ghost use Rattle.proxy_history.specs.Connections.{contains};
ghost use Rattle.proxy_history.specs.Proxy.{Proxy};
ghost use Rattle.hub_io.specs.Events.{event_of};
ghost use Rattle.proxy_serving.specs.Cores.{Shows};
ghost use Rattle.proxy_serving.specs.Face.{Face, CanMeet, NextDropped};
ghost use Rattle.outbox.specs.Fronts.{IsFrontOf};
ghost use Rattle.core_bench.specs.Runs.{Run, proxy_for, AddsRun, AddsEvent};

use hub_io::{Event, Limits};
use kit_bytes::{ConnId, Kind};
use std::alloc::{AllocError, Global};

/// A bench for the cores of proxies. It holds at most one, and whoever runs it does with it what the
/// serving of a proxy does.
pub trait Bench: Drop {
    /// What the core that it holds shows.
    ghost face: { Self → Face };

    /// Whether it holds one.
    ghost is_held: { Self → Bool };

    /// The core that it holds keeps what a proxy of these definitions has to keep of these events, the
    /// newest first.
    ghost keeps: { Proxy → List history.Event → Self → Type 0 };

    /// What was run on it, where recorded, the newest run first.
    ghost runs: { Self → Option (List Run) };

    /// Opens a core of this kind for the device of this path. It takes the place of the one that is
    /// held, which stays where memory runs out.
    fn open(
        &mut self,
        alloc: Global,
        kind: Kind,
        limits: &Limits,
        device: &str,
    ) -> Result<(), AllocError>
        ensures held { OnOk result (is_held self.new ≡ true) }
        ensures keeps { OnOk result (keeps (proxy_for kind limits.now device.now) [] self.new) }
        ensures asked { OnOk result ((face self.new).dropped ≡ []) }
        ensures greatest { OnOk result ((face self.new).greatest ≡ 0) }
        ensures runs { OnOk result (AddsRun (runs self.old) (record { kind = kind; limits = limits.now; device = device.now; events = [] }) (runs self.new)) }
        ensures err { OnErr result (self.new ≡ self.old) };

    /// The core meets an event.
    fn step(&mut self, event: Event<'_>)
        requires held { is_held self.old ≡ true }
        requires can { CanMeet (event_of event) (face self.old) }
        ensures held { is_held self.new ≡ true }
        ensures keeps { (p : Proxy) (past : List history.Event) → keeps p past self.old → keeps p (event_of event.entry ∷ past) self.new }
        ensures dropped { (p : Proxy) (past : List history.Event) → keeps p past self.old → (face self.new).dropped ≡ p.dropped (event_of event.entry ∷ past) }
        ensures greatest { (face self.new).greatest ≡ greatest_after (event_of event.entry) (face self.old).greatest }
        ensures runs { AddsEvent (runs self.old) (event_of event.entry) (runs self.new) };

    /// The first of the bytes that wait for a connection that is there; none only where none wait.
    fn queued(&self, conn: ConnId) -> &[u8]
        requires held { is_held self.now ≡ true }
        ensures { IsFrontOf result.now ((face self.now).queue conn) };

    /// The first of the bytes that wait for the modem; none only where none wait.
    fn queued_modem(&self) -> &[u8]
        requires held { is_held self.now ≡ true }
        ensures { IsFrontOf result.now (face self.now).modem_queue };

    /// All the bytes that wait for a connection that is there, in two parts.
    fn parts(&self, conn: ConnId) -> (&[u8], &[u8])
        requires held { is_held self.now ≡ true }
        ensures { result.0.now ++ result.1.now ≡ (face self.now).queue conn };

    /// All the bytes that wait for the modem, in two parts.
    fn modem_parts(&self) -> (&[u8], &[u8])
        requires held { is_held self.now ≡ true }
        ensures { result.0.now ++ result.1.now ≡ (face self.now).modem_queue };

    /// The next connection to hang up, each once.
    fn next_dropped(&mut self) -> Option<ConnId>
        requires held { is_held self.old ≡ true }
        ensures held { is_held self.new ≡ true }
        ensures next { NextDropped face self.old self.new result }
        ensures keeps { (p : Proxy) (past : List history.Event) → keeps p past self.old → keeps p past self.new }
        ensures runs { runs self.new ≡ runs self.old };

    /// Gives the bench away with all that is on it, and leaves one that holds no core. Where memory
    /// runs out all stays.
    fn take(&mut self, alloc: Global) -> Result<Self, AllocError>
        ensures taken { IfOk result (λ taken. taken ≡ self.old) }
        ensures left { OnOk result (is_held self.new ≡ false) }
        ensures err { OnErr result (self.new ≡ self.old) };

    /// A core that keeps what it has to is held, and shows what the definitions say.
    ghost shows: { (p : Proxy) (past : List history.Event) (bench : Self) → keeps p past bench → (is_held bench ≡ true) × Shows p past (face bench) };

    /// For a connection that isn't there nothing waits, once whoever was dropped was asked for.
    ghost nobody: { (bench : Self) (conn : ℕ) → contains conn (face bench).present ≡ false → (face bench).dropped ≡ [] → (face bench).queue conn ≡ [] };
}
