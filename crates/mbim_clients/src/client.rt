ghost use Rattle.std.specs.Prelude.{◌≡◌, ◌≤◌, true, min, max, length};
ghost use Rattle.kit_bytes.specs.Indications.{wants};
ghost use Rattle.mbim_fragments.specs.Assembling.{joining_behind, assembled_after, body_given};
ghost use Rattle.mbim_fragments.specs.Runs.{told, longest_body};
ghost use Rattle.proxy_history.specs.View.{OpenedWith, Shut};
ghost use Rattle.mbim_proxy.specs.Setup.{Setup};
ghost use Rattle.mbim_proxy.specs.Known.{waiting_number};
ghost use Rattle.mbim_proxy.specs.OwnReplies.{reply_to_close};
ghost use Rattle.mbim_proxy.specs.Step.{with_reply};
ghost use Rattle.mbim_state.specs.Core.{client_of, known_by};
ghost use Rattle.mbim_state.specs.Transitions.{after};
ghost use Rattle.mbim_clients.specs.Replies.{reply_as};

use crate::reply::Reply;
use connections::Renews;
use mbim_fragments::{Assembly, Body, Took};
use mbim_frame::error::NOT_OPENED;
use mbim_frame::status::SUCCESS;
use std::alloc::{AllocError, Global};
use std::marker::Model;
use subscriptions::{ClientList, PairList};
use uuid::Uuid;

/// How many bytes the fragments have at least that a client is served with.
const SHORTEST_FRAGMENT: u32 = 64;

/// How many bytes they have at most.
pub const LONGEST_FRAGMENT: u32 = 4_096;

/// What the proxy keeps of a client.
#[derive(Drop)]
pub struct Client {
    // what has come of its command of which more fragments are due
    begun: Assembly,
    configured: bool,
    opened: bool,
    waits: Option<u32>,
    fragment: u32,
    list: ClientList,
}

impl Model for Client {
    ghost use Rattle.std.specs.Prelude.{◌≤◌};
    ghost use Rattle.mbim_state.specs.Core as core;

    ghost Value = { core.Client };

    ghost view = { λ c. record { begun = c.begun; configured = c.configured; opened = c.opened; waits = c.waits; fragment = c.fragment; list = c.list } };

    ghost invariant = { λ c. record {
      least : 64 ≤ c.fragment;
      most : c.fragment ≤ 4096;
    } };
}

impl Renews for Client {
    ghost use Rattle.mbim_clients.specs.Client.{newcomer};

    ghost fresh = { newcomer };

    fn open(alloc: Global) -> Result<Self, AllocError> {
        Ok(Client {
            begun: Assembly::open(alloc)?,
            configured: false,
            opened: false,
            waits: None,
            fragment: LONGEST_FRAGMENT,
            list: ClientList::new(),
        })
    }

    fn renew(&mut self) {
        self.begun.restart();
        self.configured = false;
        self.opened = false;
        self.waits = None;
        self.fragment = LONGEST_FRAGMENT;
        self.list.restart();
    }
}

impl Client {
    /// Whether it named the device.
    pub fn is_configured(&self) -> bool
        ensures { result ≡ self.now.configured }
    {
        self.configured
    }

    /// Whether it is open.
    pub fn opened(&self) -> bool
        ensures { result ≡ self.now.opened }
    {
        self.opened
    }

    /// The number of its request to open that waits for the modem.
    pub(crate) fn waits(&self) -> Option<u32>
        ensures { result ≡ self.now.waits }
    {
        self.waits
    }

    /// The same number; 0 where no request waits.
    pub fn opening_number(&self) -> u32
        ensures { result ≡ waiting_number self.now.waits }
    {
        match self.waits {
            Some(number) => number,
            None => 0,
        }
    }

    /// How many bytes the fragments have at most that it is served with.
    pub fn fragment(&self) -> u32
        ensures fragment { result ≡ self.now.fragment }
        ensures least { 64 ≤ result }
        ensures most { result ≤ 4096 }
    {
        self.fragment
    }

    /// What it subscribes to.
    pub fn list(&self) -> &ClientList
        ensures { result.now ≡ self.now.list }
    {
        &self.list
    }

    /// Whether it subscribes to the CID of the service of this UUID.
    pub fn wants(&self, uuid: Uuid, cid: u32) -> bool
        ensures { result ≡ wants self.now.list uuid cid }
    {
        self.list.wants(uuid, cid)
    }

    /// The opening of the modem ended with this status, which answers its request that waits.
    pub fn end_opening(&mut self, status: u32)
        ensures { (s : Setup) → self.new ≡ after s (OpenedWith status) self.old }
    {
        self.waits = None;
        self.opened = status == SUCCESS;
    }

    /// The modem is lost, and the client isn't open any more.
    pub fn shut(&mut self)
        ensures { (s : Setup) → self.new ≡ after s Shut self.old }
    {
        self.opened = false;
    }

    /// It named the device.
    pub(crate) fn configure(&mut self)
        ensures { self.new ≡ record self.old { configured = true } }
    {
        self.configured = true;
    }

    /// It is open from here on.
    pub(crate) fn open_now(&mut self)
        ensures { self.new ≡ record self.old { opened = true } }
    {
        self.opened = true;
    }

    /// Its request to open with this number waits for the modem.
    pub(crate) fn wait(&mut self, number: u32)
        ensures { self.new ≡ record self.old { waits = Some number } }
    {
        self.waits = Some(number);
    }

    /// It asks for fragments of this length.
    pub(crate) fn ask_fragment(&mut self, length: u32)
        ensures { self.new ≡ record self.old { fragment = min (max length 64) 4096 } }
    {
        self.fragment = length.clamp(SHORTEST_FRAGMENT, LONGEST_FRAGMENT);
    }

    /// It subscribes to this list from here on.
    pub(crate) fn subscribe(&mut self, list: &PairList)
        requires { length list.now ≤ 30 }
        ensures { self.new ≡ record self.old { list = list.now } }
    {
        self.list.set(list);
    }

    /// Takes the next fragment of a command, and gives the command that the last one completes.
    pub(crate) fn take(&mut self, fragment: &[u8], whole: &mut Body) -> Took
        requires { 20 ≤ length fragment.now }
        ensures told { result ≡ told (joining_behind longest_body self.old.begun fragment.now) }
        ensures left { self.new ≡ record self.old { begun = assembled_after longest_body self.old.begun fragment.now } }
        ensures given { whole.new ≡ body_given (joining_behind longest_body self.old.begun fragment.now) whole.old }
    {
        self.begun.take(fragment, whole)
    }

    /// It closes, and the reply says whether it was open.
    pub(crate) fn close(&mut self) -> Reply
        ensures reply { result ≡ reply_as (reply_to_close (known_by self.old)) }
        ensures client { self.new ≡ client_of (with_reply (reply_to_close (known_by self.old)) (known_by self.old)) }
    {
        if !self.opened {
            return Reply::Error(NOT_OPENED);
        }
        self.opened = false;
        Reply::Closed
    }
}
