ghost use Rattle.std.specs.Prelude.{◌≡◌, ◌++◌, ◌≤◌, ℕ, List, [], ◌∷◌, length, IfOk};
ghost use Rattle.std.specs.Str.{encode_utf8_all};
ghost use Rattle.framing.specs.Framing.{IsMessage};
ghost use Rattle.outbox.specs.Fronts.{IsFrontOf};
ghost use Rattle.proxy_state.specs.Step as proxy;
ghost use Rattle.proxy_core.specs.Meaning.{Named, Meaning, Agrees, AreOthers, HasRoom, handlers_at, state_of};
ghost use Rattle.proxy_core.specs.Lawful.{IsLawful};

use connections::{Connections, Hears, Renews};
use framing::{Framing, LONGEST_PIECE};
use hub_io::Limits;
use kit_bytes::ConnId;
use std::alloc::{AllocError, Global};

/// What a protocol's core makes of what it meets. The protocol itself is what it has at hand: room for
/// what it writes, and what it need not work out again at each event.
pub trait Protocol: Drop {
    type Frame: Framing;

    /// What is kept of a client.
    type Client: Renews + Drop;

    /// What is kept beside the clients' connections.
    type Side: Hears<Self::Frame, Self::Client> + Drop;

    /// What it means for a core.
    ghost meaning: { Meaning Self.Client Self.Side Self };

    /// Nothing has happened yet, and the modem is there. This takes all the memory that it will ever
    /// need.
    fn open(alloc: Global, limits: &Limits, device: &str) -> Result<(Self, Self::Side), AllocError>
        ensures beside { (path : List ℕ) → device.now ≡ encode_utf8_all path → IfOk result (λ opened. opened.1 ≡ (meaning.kept (meaning.opening limits.now path)).beside [] []) }
        ensures agrees { IfOk result (λ opened. meaning.agrees [] opened.1 opened.0) };

    /// The greatest time so far that the clock showed, in milliseconds.
    fn time(side: &Self::Side) -> u64
        ensures { result ≡ (handlers_at meaning side.now).time side.now };

    /// Whether the modem is away.
    fn away(side: &Self::Side) -> bool
        ensures { result ≡ (handlers_at meaning side.now).away side.now };

    /// The first of the bytes that wait for the modem; none only where none wait.
    fn queued(side: &Self::Side) -> &[u8]
        ensures { IsFrontOf result.now ((handlers_at meaning side.now).modem_queue side.now) };

    /// All the bytes that wait for the modem, in two parts.
    fn parts(side: &Self::Side) -> (&[u8], &[u8])
        ensures { result.0.now ++ result.1.now ≡ (handlers_at meaning side.now).modem_queue side.now };

    /// A client joined, behind the others that are there.
    fn join(&mut self, side: &Self::Side, name: ConnId)
        requires { HasRoom meaning side.now self.old }
        ensures { (clients : List (Named Self.Client)) → AreOthers name clients →
            meaning.agrees clients side.now self.old → meaning.agrees (clients ++ record { name = name; client = Self.Client.fresh } ∷ []) side.now self.new };

    /// The connection of this name is gone.
    fn give_up(&mut self, side: &mut Self::Side, name: ConnId)
        ensures beside { side.new ≡ (handlers_at meaning side.old).give_up name side.old }
        ensures agrees { (front behind : List (Named Self.Client)) (client : Self.Client) → AreOthers name front → AreOthers name behind →
            meaning.agrees (front ++ record { name = name; client = client } ∷ behind) side.old self.old → meaning.agrees (front ++ behind) side.new self.new };

    /// The modem is back.
    fn regain(&mut self, side: &mut Self::Side)
        ensures beside { side.new ≡ (handlers_at meaning side.old).regain side.old }
        ensures agrees { (clients : List (Named Self.Client)) → meaning.agrees clients side.old self.old → meaning.agrees clients side.new self.new };

    /// The modem took the first so many of the bytes that waited for it.
    fn take_modem(&mut self, side: &mut Self::Side, count: usize)
        requires { count ≤ length ((handlers_at meaning side.old).modem_queue side.old) }
        ensures beside { side.new ≡ (handlers_at meaning side.old).take_modem count side.old }
        ensures agrees { (clients : List (Named Self.Client)) → meaning.agrees clients side.old self.old → meaning.agrees clients side.new self.new };

    /// A piece of the stream of the client of this name, each whole message of which is heard.
    fn bring(
        &mut self,
        connections: &mut Connections<Self::Frame, Self::Client>,
        side: &mut Self::Side,
        name: ConnId,
        piece: &[u8],
    )
        requires short { length piece.now ≤ LONGEST_PIECE }
        requires agrees { Agrees meaning connections.old side.old self.old }
        ensures brought { state_of connections.new side.new ≡ proxy.bring (handlers_at meaning side.old) Self.Frame.size name piece.now (state_of connections.old side.old) }
        ensures agrees { Agrees meaning connections.new side.new self.new };

    /// A whole message of the modem.
    fn hear_modem(
        &mut self,
        connections: &mut Connections<Self::Frame, Self::Client>,
        side: &mut Self::Side,
        message: &[u8],
    )
        requires whole { IsMessage Self.Frame.size message.now }
        requires agrees { Agrees meaning connections.old side.old self.old }
        ensures heard { state_of connections.new side.new ≡ (handlers_at meaning side.old).hear_modem message.now (state_of connections.old side.old) }
        ensures agrees { Agrees meaning connections.new side.new self.new };

    /// The modem is lost, and away from here on.
    fn lose(
        &mut self,
        connections: &mut Connections<Self::Frame, Self::Client>,
        side: &mut Self::Side,
    )
        requires { Agrees meaning connections.old side.old self.old }
        ensures lost { state_of connections.new side.new ≡ (handlers_at meaning side.old).lose (state_of connections.old side.old) }
        ensures agrees { Agrees meaning connections.new side.new self.new };

    /// The clock shows this time.
    fn tick(
        &mut self,
        connections: &mut Connections<Self::Frame, Self::Client>,
        side: &mut Self::Side,
        time: u64,
    )
        requires { Agrees meaning connections.old side.old self.old }
        ensures shown { state_of connections.new side.new ≡ (handlers_at meaning side.old).tick time (state_of connections.old side.old) }
        ensures agrees { Agrees meaning connections.new side.new self.new };

    /// The end of each event.
    fn finish(
        &mut self,
        connections: &mut Connections<Self::Frame, Self::Client>,
        side: &mut Self::Side,
    )
        requires { Agrees meaning connections.old side.old self.old }
        ensures finished { state_of connections.new side.new ≡ (handlers_at meaning side.old).finish (state_of connections.old side.old) }
        ensures agrees { Agrees meaning connections.new side.new self.new };

    // What it owes, so that its cores keep what its definitions say.
    ghost lawful: { IsLawful meaning Self.Client.fresh Self.Frame.size };
}
