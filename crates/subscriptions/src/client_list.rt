ghost use Rattle.std.specs.Prelude.{◌≡◌, ◌≤◌, ◌&&◌, ◌==◌, bytes_eq, length};
ghost use Rattle.std.specs.Cmp.Lexicographic.{slice_cmp};
ghost use Rattle.std.specs.Ordering.{is_eq};
ghost use Rattle.kit_bytes.specs.Indications.{is_cid, wants};
ghost use Rattle.kit_bytes.specs.Services.{starting_list};
ghost use Rattle.kit_bytes.specs.Subscriptions.{pair_cmp};
ghost use Rattle.subscriptions.specs.Lists.{IsNormal};

use crate::pair_list::{Pair, PairList};
use arrayvec::ArrayVec;
use kit_bytes::services;
use std::marker::Model;
use uuid::Uuid;

/// How many pairs the list of one client may have.
pub const LONGEST_CLIENT_LIST: usize = 30;

/// What one client subscribes to, in normal form. It takes no memory.
#[derive(Drop)]
pub struct ClientList {
    pairs: ArrayVec<Pair, LONGEST_CLIENT_LIST>,
}

impl Model for ClientList {
    ghost use Rattle.std.specs.Prelude.{◌≤◌, List, length};
    ghost use Rattle.kit_bytes.specs.Subscriptions.{Pair as TablePair};
    ghost use Rattle.subscriptions.specs.Lists.{IsNormal};

    ghost Value = { List TablePair };

    ghost view = { λ list. list.pairs.items };

    ghost invariant = { λ list. record {
      normal : IsNormal list.pairs.items;
      few : length list.pairs.items ≤ 30;
    } };
}

impl ClientList {
    /// The list that a client starts with.
    pub fn new() -> Self
        ensures { result ≡ starting_list }
    {
        let mut pairs = ArrayVec::new();
        pairs.push((Uuid::from_bytes(services::PHONEBOOK), None));
        pairs.push((Uuid::from_bytes(services::SMS), None));
        pairs.push((Uuid::from_bytes(services::BASIC_CONNECT), None));
        pairs.push((Uuid::from_bytes(services::STK), None));
        pairs.push((Uuid::from_bytes(services::USSD), None));
        ClientList { pairs }
    }

    /// The list that a client starts with again.
    pub fn restart(&mut self)
        ensures { self.new ≡ starting_list }
    {
        *self = ClientList::new();
    }

    pub fn set(&mut self, list: &PairList)
        requires { length list.now ≤ LONGEST_CLIENT_LIST }
        ensures { self.new ≡ list.now }
    {
        self.pairs.clear();
        let _ = self.pairs.try_extend_from_slice(list.pairs());
    }

    /// Takes the pairs of another client's list.
    pub fn copy(&mut self, list: &ClientList)
        ensures { self.new ≡ list.now }
    {
        self.pairs.clear();
        let _ = self.pairs.try_extend_from_slice(list.pairs());
    }

    /// All pairs.
    pub fn pairs(&self) -> &[Pair]
        ensures pairs { result.now ≡ self.now }
        ensures normal { IsNormal result.now }
        ensures few { length result.now ≤ LONGEST_CLIENT_LIST }
    {
        self.pairs.as_slice()
    }

    /// Whether it has the same pairs.
    pub fn is_same(&self, list: &ClientList) -> bool
        ensures same { result ≡ is_eq (slice_cmp pair_cmp self.now list.now) }
        ensures few { length list.now ≤ LONGEST_CLIENT_LIST }
    {
        self.pairs().cmp(list.pairs()).is_eq()
    }

    /// Whether it has the CID of the service of this UUID.
    pub fn wants(&self, uuid: Uuid, cid: u32) -> bool
        ensures { result ≡ wants self.now uuid cid }
    {
        some_asks(self.pairs.as_slice(), uuid, cid)
    }
}

fn some_asks(pairs: &[Pair], uuid: Uuid, cid: u32) -> bool
    ensures { result ≡ wants pairs.now uuid cid }
{
    pairs.iter().any(|pair| asks(pair, uuid, cid))
}

fn asks(pair: &Pair, uuid: Uuid, cid: u32) -> bool
    ensures { result ≡ bytes_eq pair.now.0 uuid && is_cid cid pair.now.1 }
{
    pair.0 == uuid && pair.1.is_none_or(|number| number == cid)
}
