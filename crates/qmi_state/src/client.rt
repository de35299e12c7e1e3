ghost use Rattle.std.specs.Prelude.{false};

use connections::Renews;
use std::alloc::{AllocError, Global};

/// What the proxy keeps of a client.
#[derive(Clone, Copy, PartialEq, Eq)]
pub struct Client {
    /// Whether it has opened the device.
    pub opened: bool,
}

impl Renews for Client {
    ghost fresh = { record { opened = false } };

    fn open(_alloc: Global) -> Result<Self, AllocError> {
        Ok(Client { opened: false })
    }

    fn renew(&mut self) {
        self.opened = false;
    }
}
