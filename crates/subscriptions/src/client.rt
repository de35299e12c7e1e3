ghost use Rattle.std.specs.Prelude.{◌≡◌, ◌+◌, ◌≤◌, true, false, length};
ghost use Rattle.kit_bytes.specs.Indications.{wants};
ghost use Rattle.kit_bytes.specs.Subscriptions.{Pair as TablePair};
ghost use Rattle.subscriptions.specs.Clients.{is_of, newcomer, share, with_shown, with_list, with_both};
ghost use Rattle.subscriptions.specs.Counts.{AreRecounted, count_of, times_in, total};

use crate::client_list::{ClientList, LONGEST_CLIENT_LIST};
use crate::counts::Counts;
use crate::pair_list::{LONGEST_LIST, PairList};
use kit_bytes::ConnId;
use std::marker::Model;
use uuid::Uuid;

/// A client that is there.
#[derive(Drop)]
pub struct Client {
    conn: ConnId,
    shown: bool,
    list: ClientList,
}

impl Model for Client {
    ghost use Rattle.subscriptions.specs.Clients.{Client as TableClient};

    ghost Value = { TableClient };

    ghost view = { λ client. record { conn = client.conn; shown = client.shown; list = client.list } };
}

impl Client {
    /// A client that joined: it has the starting list, and isn't shown.
    pub fn new(conn: ConnId) -> Self
        ensures { result ≡ newcomer conn }
    {
        Client {
            conn,
            shown: false,
            list: ClientList::new(),
        }
    }

    pub fn is_of(&self, conn: ConnId) -> bool
        ensures { result ≡ is_of conn self.now }
    {
        conn == self.conn
    }

    /// Its list counts from now on, or no longer.
    pub fn show(&mut self, shown: bool, counts: &mut Counts)
        requires there { (pair : TablePair) → times_in pair (share self.old) ≤ count_of pair counts.old }
        requires few { total counts.old + length (share (with_shown shown self.old)) ≤ LONGEST_LIST + length (share self.old) }
        ensures client { self.new ≡ with_shown shown self.old }
        ensures counts { AreRecounted self.old self.new counts.old counts.new }
    {
        self.uncount(counts);
        self.shown = shown;
        self.count(counts);
    }

    // Counts its list, if it is shown.
    fn count(&self, counts: &mut Counts)
        requires { total counts.old + length (share self.now) ≤ LONGEST_LIST }
        ensures counted { (pair : TablePair) → count_of pair counts.new ≡ count_of pair counts.old + times_in pair (share self.now) }
        ensures total { total counts.new ≡ total counts.old + length (share self.now) }
    {
        if self.shown {
            counts.add(&self.list);
        }
    }

    /// Takes back that its list was counted, if it is shown.
    pub fn uncount(&self, counts: &mut Counts)
        requires { (pair : TablePair) → times_in pair (share self.now) ≤ count_of pair counts.old }
        ensures counted { (pair : TablePair) → count_of pair counts.new + times_in pair (share self.now) ≡ count_of pair counts.old }
        ensures total { total counts.new + length (share self.now) ≡ total counts.old }
    {
        if self.shown {
            counts.remove(&self.list);
        }
    }

    pub fn list(&self) -> &ClientList
        ensures { result.now ≡ self.now.list }
    {
        &self.list
    }

    /// It subscribes to this list from now on.
    pub fn set(&mut self, list: &PairList, counts: &mut Counts)
        requires short { length list.now ≤ LONGEST_CLIENT_LIST }
        requires there { (pair : TablePair) → times_in pair (share self.old) ≤ count_of pair counts.old }
        requires few { total counts.old ≤ LONGEST_LIST }
        ensures client { self.new ≡ with_list list.now self.old }
        ensures counts { AreRecounted self.old self.new counts.old counts.new }
    {
        let mut next = ClientList::new();
        next.set(list);
        if self.shown {
            // in this order a pair of both lists stays in its place
            counts.add(&next);
            counts.remove(&self.list);
        }
        self.list = next;
    }

    /// It subscribes to this list from now on, which counts or doesn't. Says whether that is new.
    pub fn update(&mut self, shown: bool, list: &ClientList, counts: &mut Counts) -> bool
        requires there { (pair : TablePair) → times_in pair (share self.old) ≤ count_of pair counts.old }
        requires few { total counts.old ≤ LONGEST_LIST }
        ensures client { self.new ≡ with_both shown list.now self.old }
        ensures counts { AreRecounted self.old self.new counts.old counts.new }
        ensures same { result ≡ false → (self.new ≡ self.old) × (counts.new ≡ counts.old) }
        ensures other { result ≡ true → ¬ (self.new ≡ self.old) }
        ensures short { length list.now ≤ LONGEST_CLIENT_LIST }
    {
        let same = self.list.is_same(list);
        if same && shown == self.shown {
            return false;
        }
        // in this order a pair of both lists stays in its place
        if shown {
            counts.add(list);
        }
        if self.shown {
            counts.remove(&self.list);
        }
        self.shown = shown;
        self.list.copy(list);
        true
    }

    /// Whether it subscribes to the CID of the service of this UUID.
    pub fn wants(&self, uuid: Uuid, cid: u32) -> bool
        ensures { result ≡ wants self.now.list uuid cid }
    {
        self.list.wants(uuid, cid)
    }
}
