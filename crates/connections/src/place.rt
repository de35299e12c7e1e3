ghost use Rattle.std.specs.Prelude.{◌≡◌, [], IfOk};
ghost use Rattle.outbox.specs.Queue.{opened};

use crate::renews::Renews;
use framing::{Cutter, Framing};
use outbox::Outbox;
use std::alloc::{AllocError, Global};

/// The room for a connection: for what the protocol keeps of its client, for what is left of its
/// stream, and for the bytes that wait for it.
#[derive(Drop)]
pub struct Place<F: Framing, T> {
    pub client: T,
    pub stream: Cutter<F>,
    pub outbox: Outbox,
}

impl<F: Framing, T: Renews + Drop> Place<F, T> {
    /// A place in which so many bytes may wait.
    pub fn open(alloc: Global, room: usize) -> Result<Self, AllocError>
        ensures { IfOk result (λ place. place.outbox ≡ opened room) }
    {
        Ok(Place {
            client: T::open(alloc)?,
            stream: Cutter::open(alloc)?,
            outbox: Outbox::open(alloc, room)?,
        })
    }

    /// It is for a connection that has just begun.
    pub fn renew(&mut self)
        ensures client { self.new.client ≡ T.fresh }
        ensures stream { self.new.stream.rest ≡ [] }
        ensures outbox { self.new.outbox ≡ opened self.old.outbox.capacity }
    {
        self.client.renew();
        self.stream.restart();
        self.outbox.clear();
    }
}
