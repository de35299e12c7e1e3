ghost use Rattle.std.specs.Prelude.{◌≡◌, ◌<◌, ◌≤◌, ◌∷◌, ◌++◌, ℕ, List, length, slice_get, Some, OnOk, OnErr, IfSome};
ghost use Rattle.outbox.specs.Fronts.{IsFrontOf};
ghost use Rattle.proxy_history.specs.Events as history;
ghost use Rattle.proxy_history.specs.Events.{greatest_after};
ghost use Rattle.hub_io.specs.Events.{event_of};
ghost use Rattle.proxy_history.specs.Proxy.{Proxy};
ghost use Rattle.proxy_serving.specs.Face.{Face, CanMeet, BringsIn, NextDropped, first_waiting};
ghost use Rattle.proxy_serving.specs.Cores.{Shows};

use hub_io::Event;
use kit_bytes::ConnId;
use std::alloc::AllocError;

/// The core of a proxy between several clients and one modem: it meets events, and tells what waits
/// for whom.
pub trait ProxyCore: Drop {
    /// What it shows.
    ghost face: { Self → Face };

    /// It keeps what a proxy of these definitions has to keep of these events, the newest first.
    ghost keeps: { Proxy → List history.Event → Self → Type 0 };

    /// The events for which memory may be lacking, each one that a hub tells and that brings something
    /// in.
    ghost lacks_memory: { history.Event → Type 0 };

    /// Meets an event. Where memory runs out, the core is only to be dropped.
    fn step(&mut self, event: Event<'_>) -> Result<(), AllocError>
        requires { CanMeet (event_of event) (face self.old) }
        ensures keeps { OnOk result ((p : Proxy) (past : List history.Event) → keeps p past self.old → keeps p (event_of event.entry ∷ past) self.new) }
        ensures dropped { OnOk result ((p : Proxy) (past : List history.Event) → keeps p past self.old → (face self.new).dropped ≡ p.dropped (event_of event.entry ∷ past)) }
        ensures greatest { OnOk result ((face self.new).greatest ≡ greatest_after (event_of event.entry) (face self.old).greatest) }
        ensures memory { OnErr result (lacks_memory (event_of event.entry)) }
        ensures brings { OnErr result (BringsIn (event_of event.entry)) };

    /// The first of the bytes that wait for a connection that is there; none only where none wait.
    fn queued(&self, conn: ConnId) -> &[u8]
        ensures { IsFrontOf result.now ((face self.now).queue conn) };

    /// The first of the bytes that wait for the modem; none only where none wait.
    fn queued_modem(&self) -> &[u8]
        ensures { IsFrontOf result.now (face self.now).modem_queue };

    /// All the bytes that wait for a connection that is there, in two parts.
    fn parts(&self, conn: ConnId) -> (&[u8], &[u8])
        ensures { result.0.now ++ result.1.now ≡ (face self.now).queue conn };

    /// All the bytes that wait for the modem, in two parts.
    fn modem_parts(&self) -> (&[u8], &[u8])
        ensures { result.0.now ++ result.1.now ≡ (face self.now).modem_queue };

    /// The next connection to hang up, each once.
    fn next_dropped(&mut self) -> Option<ConnId>
        ensures next { NextDropped face self.old self.new result }
        ensures keeps { (p : Proxy) (past : List history.Event) → keeps p past self.old → keeps p past self.new };

    /// The place of the first connection, from this place on in the order of joining, for which bytes
    /// wait.
    fn waiting_from(&self, from: usize) -> Option<usize>
        requires { from ≤ length (face self.now).present }
        ensures place { (p : Proxy) (past : List history.Event) → keeps p past self.now → result ≡ first_waiting p past from }
        ensures within { IfSome result (λ place. (from ≤ place) × (place < length (face self.now).present)) }
        ensures fits { IfSome result (λ place. place < usize.MAX) };

    /// The connection of this place in the order of joining.
    fn conn_at(&self, index: usize) -> ConnId
        requires { index < length (face self.now).present }
        ensures { slice_get (face self.now).present index ≡ Some result };

    /// How many connections are there.
    fn present(&self) -> usize
        ensures { result ≡ length (face self.now).present };

    /// Whether the modem is away.
    fn away(&self) -> bool
        ensures { result ≡ (face self.now).away };

    /// The greatest time so far that the clock showed, in milliseconds.
    fn time(&self) -> u64
        ensures { result ≡ (face self.now).time };

    /// A core that keeps what it has to shows what the definitions say.
    ghost shows: { (p : Proxy) (past : List history.Event) (core : Self) → keeps p past core → Shows p past (face core) };
}
