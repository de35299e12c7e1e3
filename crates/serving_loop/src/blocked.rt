ghost use Rattle.std.specs.Prelude.{◌≡◌, ◌==◌, []};
ghost use Rattle.std.specs.List.{list_any};
ghost use Rattle.proxy_history.specs.Connections.{without};
ghost use Rattle.serving_loop.specs.Server.{remembering};

use arrayvec::ArrayVec;
use kit_bytes::ConnId;
use std::marker::Model;

/// So many are remembered at most.
pub const MOST_BLOCKED: usize = 64;

/// The clients whose sockets take nothing now, by their names, or the modems that take nothing, by
/// their devices: all of them, unless they are more than are remembered. This takes no memory.
#[derive(Drop)]
pub struct Blocked {
    names: ArrayVec<ConnId, MOST_BLOCKED>,
}

impl Model for Blocked {
    ghost use Rattle.std.specs.Prelude.{ℕ, List};

    ghost Value = { List ℕ };

    ghost view = { λ blocked. blocked.names.items };
}

impl Blocked {
    /// Nobody.
    pub fn none() -> Self
        ensures { result ≡ [] }
    {
        Blocked {
            names: ArrayVec::new(),
        }
    }

    /// Whether this one is among them.
    pub fn contains(&self, name: ConnId) -> bool
        ensures { result ≡ list_any (λ other. name == other) self.now }
    {
        self.names.iter().any(|other| name == *other)
    }

    /// Adds one. One too many isn't remembered, and so is offered again what waits for it.
    pub fn add(&mut self, name: ConnId)
        ensures { self.new ≡ remembering name self.old }
    {
        let _ = self.names.try_push(name);
    }

    /// Takes one out.
    pub fn remove(&mut self, name: ConnId)
        ensures { self.new ≡ without name self.old }
    {
        self.names.retain(|other| name != *other);
    }
}
