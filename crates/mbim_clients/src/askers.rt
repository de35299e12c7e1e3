ghost use Rattle.std.specs.Prelude.{◌≡◌, [], drop, slice_get};
ghost use Rattle.connections.specs.Table.{connection_in};
ghost use Rattle.proxy_history.specs.Connections.{without};
ghost use Rattle.mbim_state.specs.Transitions.{asked_last, is_waiting, waiting_of};

use crate::client::Client;
use arrayvec::ArrayVec;
use connections::Connections;
use kit_bytes::ConnId;
use mbim_frame::Mbim;
use std::marker::Model;

/// So many clients are there at most.
const MOST_CLIENTS: usize = 64;

/// Clients that asked to open the modem and had to wait, by their names, in the order of that. This
/// takes no memory.
#[derive(Drop)]
pub struct Askers {
    names: ArrayVec<ConnId, MOST_CLIENTS>,
}

impl Model for Askers {
    ghost use Rattle.std.specs.Prelude.{ℕ, List};

    ghost Value = { List ℕ };

    ghost view = { λ askers. askers.names.items };
}

impl Askers {
    /// Nobody.
    pub(crate) fn none() -> Self
        ensures { result ≡ [] }
    {
        Askers {
            names: ArrayVec::new(),
        }
    }

    /// The client of this name asks, and comes last.
    pub(crate) fn ask(&mut self, name: ConnId)
        ensures { self.new ≡ asked_last 64 name self.old }
    {
        self.remove(name);
        let _ = self.names.try_push(name);
    }

    /// The client of this name asks for nothing any more.
    pub(crate) fn remove(&mut self, name: ConnId)
        ensures { self.new ≡ without name self.old }
    {
        self.names.retain(|other| name != *other);
    }

    /// Those of them whose requests wait still.
    pub(crate) fn waiting(&self, connections: &Connections<Mbim, Client>) -> Askers
        ensures { result ≡ waiting_of connections.now.present self.now }
    {
        let mut names = copied(&self.names);
        names.retain(|name| waits(connections, *name));
        Askers { names }
    }

    /// Takes the first of them out.
    pub fn take_first(&mut self) -> Option<u64>
        ensures first { result ≡ slice_get self.old 0 }
        ensures rest { self.new ≡ drop 1 self.old }
    {
        self.names.pop_at(0)
    }
}

fn copied(names: &ArrayVec<u64, MOST_CLIENTS>) -> ArrayVec<u64, MOST_CLIENTS>
    ensures { result.items ≡ names.now.items }
{
    let mut copy = ArrayVec::new();
    let _ = copy.try_extend_from_slice(names.as_slice());
    copy
}

// Whether the client of this name is there and its request to open the modem waits.
fn waits(connections: &Connections<Mbim, Client>, name: ConnId) -> bool
    ensures { result ≡ is_waiting (connection_in name connections.now.present) }
{
    match connections.find(name) {
        Some(place) => connections.client_at(place).waits().is_some(),
        None => false,
    }
}
