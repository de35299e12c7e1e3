ghost use Rattle.std.specs.Prelude.{◌≡◌, ◌<◌, ◌≤◌, [], position, length, vec_len, vec_capacity, is_err, true, false, IfOk};
ghost use Rattle.kit_bytes.specs.Indications.{wants};
ghost use Rattle.subscriptions.specs.Clients.{is_of, is_too_long, joins, leaves, list_of, merged, sets, shows, updates};
ghost use Rattle.subscriptions.specs.Counts.{CountShown};

use crate::client::Client;
use crate::client_list::{ClientList, LONGEST_CLIENT_LIST};
use crate::counts::Counts;
use crate::pair_list::PairList;
use kit_bytes::ConnId;
use std::alloc::{AllocError, Global};
use std::marker::Model;
use thiserror::Error;
use uuid::Uuid;

/// How many clients may be there.
pub const CLIENT_LIMIT: usize = 64;

/// The list of a client would have more than 30 pairs.
#[derive(Clone, Copy, Debug, PartialEq, Eq, Error)]
#[error("a client subscribes to more than 30 pairs")]
pub struct TooMany;

/// What each client subscribes to, and which of them are shown in the merge.
#[derive(Drop)]
pub struct Subscriptions {
    clients: Vec<Client>,
    // for each pair of a shown list, how many of them have it
    counts: Counts,
    // all that the shown clients subscribe to
    merged: PairList,
}

impl Model for Subscriptions {
    ghost use Rattle.std.specs.Prelude.{◌≡◌, ◌≤◌, List, length, vec_capacity};
    ghost use Rattle.std.specs.List.{AllByRecursion};
    ghost use Rattle.kit_bytes.specs.Subscriptions.{normal_form};
    ghost use Rattle.subscriptions.specs.Clients.{Client as TableClient, gathered};
    ghost use Rattle.subscriptions.specs.Counts.{CountShown};

    ghost Value = { List TableClient };

    ghost view = { λ table. table.clients.items };

    ghost invariant = { λ table. record {
      few : length table.clients.items ≤ 64;
      room : 64 ≤ vec_capacity table.clients;
      short : AllByRecursion (λ client. length client.list ≤ 30) table.clients.items;
      counted : CountShown table.clients.items table.counts;
      merged : table.merged ≡ normal_form (gathered table.clients.items);
    } };
}

impl Subscriptions {
    /// Nobody is there. This takes all the memory that it will ever need.
    pub fn open(alloc: Global) -> Result<Self, AllocError>
        ensures { IfOk result (λ table. table ≡ []) }
    {
        let counts = Counts::open(alloc)?;
        let merged = PairList::open(alloc)?;
        Ok(Subscriptions {
            clients: Vec::with_capacity(alloc, CLIENT_LIMIT)?,
            counts,
            merged,
        })
    }

    /// A client joins with the starting list, and isn't shown.
    pub fn joined(&mut self, conn: ConnId)
        requires { length self.old < CLIENT_LIMIT }
        ensures { self.new ≡ joins conn self.old }
    {
        self.leave(conn);
        self.clients.push_reserved(Client::new(conn));
    }

    /// Whether the client's list counts in the merge from now on.
    pub fn show(&mut self, conn: ConnId, shown: bool)
        ensures { self.new ≡ shows conn shown self.old }
    {
        if let Some(place) = find(&self.clients, conn) {
            let client = &mut self.clients[place];
            client.show(shown, &mut self.counts);
            self.counts.write(&mut self.merged);
        }
    }

    /// The client is gone.
    pub fn leave(&mut self, conn: ConnId)
        ensures { self.new ≡ leaves conn self.old }
    {
        uncount(&self.clients, conn, &mut self.counts);
        self.clients.retain(|client| !client.is_of(conn));
        self.counts.write(&mut self.merged);
    }

    /// Gives the client this list, unless it has more than 30 pairs: then nothing changes.
    pub fn set(&mut self, conn: ConnId, list: &PairList) -> Result<(), TooMany>
        ensures too_many { is_err result ≡ is_too_long list.now }
        ensures set { self.new ≡ sets conn list.now self.old }
    {
        if LONGEST_CLIENT_LIST < list.len() {
            return Err(TooMany);
        }
        if let Some(place) = find(&self.clients, conn) {
            let client = &mut self.clients[place];
            client.set(list, &mut self.counts);
            self.counts.write(&mut self.merged);
        }
        Ok(())
    }

    /// The client subscribes to this list from now on, which counts in the merge or doesn't. Says
    /// whether that is new.
    pub fn update(&mut self, conn: ConnId, shown: bool, list: &ClientList) -> bool
        ensures updated { self.new ≡ updates conn shown list.now self.old }
        ensures same { result ≡ false → self.new ≡ self.old }
        ensures other { result ≡ true → ¬ (self.new ≡ self.old) }
    {
        let Some(place) = find(&self.clients, conn) else {
            return false;
        };
        let client = &mut self.clients[place];
        if !client.update(shown, list, &mut self.counts) {
            return false;
        }
        self.counts.write(&mut self.merged);
        true
    }

    /// Whether the client subscribes to the CID of the service of this UUID.
    pub fn wants(&self, conn: ConnId, uuid: Uuid, cid: u32) -> bool
        ensures { result ≡ wants (list_of conn self.now) uuid cid }
    {
        match find(&self.clients, conn) {
            Some(place) => {
                let client = &self.clients[place];
                client.wants(uuid, cid)
            }
            None => false,
        }
    }

    /// Writes the client's list into this one: none for a client that isn't there.
    pub fn list(&self, conn: ConnId, into: &mut PairList)
        ensures { into.new ≡ list_of conn self.now }
    {
        match find(&self.clients, conn) {
            Some(place) => {
                let client = &self.clients[place];
                into.copy(client.list());
            }
            None => into.clear(),
        }
    }

    /// Writes the normal form of all that the shown clients subscribe to into this list.
    pub fn merged(&self, into: &mut PairList)
        ensures { into.new ≡ merged self.now }
    {
        into.set(&self.merged);
    }

    /// The normal form of all that the shown clients subscribe to.
    pub fn merged_list(&self) -> &PairList
        ensures { result.now ≡ merged self.now }
    {
        &self.merged
    }
}

// Takes back that the list of this connection was counted.
fn uncount(clients: &[Client], conn: ConnId, counts: &mut Counts)
    requires { CountShown clients.now counts.old }
    ensures { CountShown (leaves conn clients.now) counts.new }
{
    for client in clients {
        if client.is_of(conn) {
            client.uncount(counts);
        }
    }
}

// The place of a client.
fn find(clients: &[Client], conn: ConnId) -> Option<usize>
    ensures { result ≡ position (is_of conn) clients.now }
{
    clients.iter().position(|client| client.is_of(conn))
}
