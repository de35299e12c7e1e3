ghost use Rattle.std.specs.Prelude.{◌≡◌, ℕ, List};
ghost use Rattle.framing.specs.Framing.{IsMessage};
ghost use Rattle.outbox.specs.Queue.{Queue};
ghost use Rattle.connections.specs.Hearing.{Hearing, Hearer};

use framing::Framing;
use kit_bytes::ConnId;
use outbox::Outbox;

/// How a protocol hears its clients. What it keeps beside their connections implements this.
pub trait Hears<F: Framing, T> {
    ghost hears: { Hearer T Self };

    /// Hears a whole message of the connection of this name, and says whether all that was due to
    /// its client found room.
    fn hear(&mut self, name: ConnId, message: &[u8], client: &mut T, outbox: &mut Outbox) -> bool
        requires { IsMessage F.size message.now }
        ensures room { result ≡ (hears name message.now client.old outbox.old self.old).has_room }
        ensures client { client.new ≡ (hears name message.now client.old outbox.old self.old).client }
        ensures outbox { outbox.new ≡ (hears name message.now client.old outbox.old self.old).outbox }
        ensures beside { self.new ≡ (hears name message.now client.old outbox.old self.old).beside };

    // An outbox keeps its capacity.
    ghost capacity: { (name : ℕ) (message : List ℕ) (client : T) (outbox : Queue) (beside : Self) → (hears name message client outbox beside).outbox.capacity ≡ outbox.capacity };
}
