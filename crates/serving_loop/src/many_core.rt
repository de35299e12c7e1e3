ghost use Rattle.std.specs.Prelude.{◌≡◌, ◌<◌, ◌≤◌, ◌∷◌, ◌++◌, ℕ, List, length, slice_get, Some, OnOk, OnErr, IfSome};
ghost use Rattle.outbox.specs.Fronts.{IsFrontOf};
ghost use Rattle.many_history.specs.Events as history;
ghost use Rattle.many_io.specs.Events.{event_of};
ghost use Rattle.many_serving.specs.Proxy.{ManyProxy};
ghost use Rattle.serving_loop.specs.Face.{ManyFace, CanMeet, BringsIn, NextDropped, first_waiting, greatest_after};
ghost use Rattle.serving_loop.specs.Cores.{Shows};

use kit_bytes::ConnId;
use many_io::ManyEvent;
use std::alloc::AllocError;

/// The core of a proxy between several clients and the modems of its devices: it meets events, and
/// tells what waits for whom. Devices are counted from 0.
pub trait ManyProxyCore: Drop {
    /// What it shows.
    ghost face: { Self → ManyFace };

    /// It keeps what a proxy of these definitions has to keep of these events, the newest first.
    ghost keeps: { ManyProxy → List history.ManyEvent → Self → Type 0 };

    /// The events for which memory may be lacking, each one that a hub tells and that brings something
    /// in.
    ghost lacks_memory: { history.ManyEvent → Type 0 };

    /// Meets an event. Where memory runs out, the core is only to be dropped.
    fn step(&mut self, event: ManyEvent<'_>) -> Result<(), AllocError>
        requires { CanMeet (event_of event) (face self.old) }
        ensures keeps { OnOk result ((p : ManyProxy) (past : List history.ManyEvent) → keeps p past self.old → keeps p (event_of event.entry ∷ past) self.new) }
        ensures dropped { OnOk result ((p : ManyProxy) (past : List history.ManyEvent) → keeps p past self.old → (face self.new).dropped ≡ p.dropped (event_of event.entry ∷ past)) }
        ensures devices { OnOk result ((face self.new).devices ≡ (face self.old).devices) }
        ensures greatest { OnOk result ((face self.new).greatest ≡ greatest_after (event_of event.entry) (face self.old).greatest) }
        ensures memory { OnErr result (lacks_memory (event_of event.entry)) }
        ensures brings { OnErr result (BringsIn (event_of event.entry)) };

    /// How many devices there are.
    fn devices(&self) -> usize
        ensures { result ≡ (face self.now).devices };

    /// The first of the bytes that wait for a connection that is there; none only where none wait.
    fn queued(&self, conn: ConnId) -> &[u8]
        ensures { IsFrontOf result.now ((face self.now).queue conn) };

    /// The first of the bytes that wait for the modem of a device; none only where none wait.
    fn queued_modem(&self, device: usize) -> &[u8]
        requires { device < (face self.now).devices }
        ensures { IsFrontOf result.now ((face self.now).modem_queue device) };

    /// The next connection to hang up, each once.
    fn next_dropped(&mut self) -> Option<ConnId>
        ensures next { NextDropped face self.old self.new result }
        ensures keeps { (p : ManyProxy) (past : List history.ManyEvent) → keeps p past self.old → keeps p past self.new };

    /// The place of the first connection, from this place on in the order of joining, for which bytes
    /// wait.
    fn waiting_from(&self, from: usize) -> Option<usize>
        requires { from ≤ length (face self.now).present }
        ensures place { (p : ManyProxy) (past : List history.ManyEvent) → keeps p past self.now → result ≡ first_waiting p past from }
        ensures within { IfSome result (λ place. (from ≤ place) × (place < length (face self.now).present)) }
        ensures fits { IfSome result (λ place. place < usize.MAX) };

    /// The connection of this place in the order of joining.
    fn conn_at(&self, index: usize) -> ConnId
        requires { index < length (face self.now).present }
        ensures { slice_get (face self.now).present index ≡ Some result };

    /// How many connections are there.
    fn present(&self) -> usize
        ensures { result ≡ length (face self.now).present };

    /// Whether the modem of a device is away.
    fn away(&self, device: usize) -> bool
        requires { device < (face self.now).devices }
        ensures { result ≡ (face self.now).away device };

    /// The greatest time so far that the clock showed, in milliseconds.
    fn time(&self) -> u64
        ensures { result ≡ (face self.now).time };

    /// A core that keeps what it has to shows what the definitions say.
    ghost shows: { (p : ManyProxy) (past : List history.ManyEvent) (core : Self) → keeps p past core → Shows p past (face core) };
}
