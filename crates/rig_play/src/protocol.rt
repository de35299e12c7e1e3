ghost use Rattle.std.specs.Prelude.{◌≡◌, ◌<◌, ◌≤◌, [], ℕ, List, None, length, IfOk};
ghost use Rattle.kit_bytes.specs.declared.kind.Kind as spec;
ghost use Rattle.proxy_history.specs.Events.{Event};
ghost use Rattle.proxy_history.specs.Proxy.{Proxy};
ghost use Rattle.sim_modem.specs.Sim.{Answering};
ghost use Rattle.core_bench.specs.Runs.{proxy_for};
ghost use Rattle.rig_runs.specs.Rig.{device, rig, time_limit};
ghost use Rattle.rig_stage.specs.Stage.{KeepsTime};
ghost use Rattle.rig_play.specs.Play.{cast_of, script_of};

use framing::LONGEST_PIECE;
use kit_bytes::{Kind, Octets};
use sim_modem::Sim;
use std::alloc::{AllocError, Global};

/// The path of the device.
pub(crate) const DEVICE: &str = "rig";

/// What the rig needs of a protocol.
pub trait Protocol {
    /// The modem behind the proxy.
    type Modem: Sim;

    /// Which protocol it is.
    ghost kind: { spec.Kind };

    /// What the proxy between them says.
    ghost proxy: { Proxy };

    /// What the modem answers.
    ghost answers: { Answering };

    /// The first of a client's two messages that open the device, by which it names the device.
    ghost first: { List ℕ };

    /// The second.
    ghost second: { List ℕ };

    /// The request of a client for a choice, with a number of its own.
    ghost asks: { (conn choice number : ℕ) → List ℕ };

    /// The number of a client's first request.
    ghost FIRST_NUMBER: { ℕ };

    /// What the proxy meets of so many clients in so many turns, which are drawn from a number.
    ghost events: { (clients turns number : ℕ) → List Event };

    /// The number of a client's first request.
    const FIRST_NUMBER: u16;

    /// Which protocol it is.
    fn kind() -> Kind
        ensures { result ≡ kind };

    /// The modem that says nothing of its own, before any request.
    fn modem(alloc: Global) -> Result<Self::Modem, AllocError>
        ensures { IfOk result (λ modem. Self.Modem.keeps answers [] modem) };

    /// The first message of a client, by which it names the device.
    fn first(alloc: Global) -> Result<Octets, AllocError>
        ensures message { IfOk result (λ message. message ≡ first) }
        ensures short { IfOk result (λ message. length message ≤ LONGEST_PIECE) };

    /// Its second message.
    fn second(alloc: Global) -> Result<Octets, AllocError>
        ensures message { IfOk result (λ message. message ≡ second) }
        ensures short { IfOk result (λ message. length message ≤ LONGEST_PIECE) };

    /// The request of a client for this choice, 0 to 3, with this number.
    fn request(alloc: Global, conn: u8, choice: u64, number: u16) -> Result<Octets, AllocError>
        ensures message { IfOk result (λ message. message ≡ asks conn choice number) }
        ensures short { IfOk result (λ message. length message ≤ LONGEST_PIECE) };

    // A client's numbers go from 1 to 65,535.
    ghost numbered: { (0 < FIRST_NUMBER) × (FIRST_NUMBER ≤ 65535) };

    // The proxy is the one of this kind for the device of the rig.
    ghost opens: { proxy_for kind (record { time = time_limit; release = None }) device ≡ proxy };

    // The clock of the proxy begins at 0.
    ghost begins: { proxy.time [] ≡ 0 };

    // Only the clock sets the time of the proxy.
    ghost keeps_time: { KeepsTime proxy };

    // The proxy meets what the rig says.
    ghost draws: { (clients turns number : ℕ) → rig (cast_of proxy answers Self.Modem.Framing.size clients) (script_of first second asks FIRST_NUMBER) turns number ≡ events clients turns number };
}
