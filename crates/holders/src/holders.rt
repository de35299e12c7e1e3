ghost use Rattle.std.specs.Prelude.{◌≡◌, ◌↔◌, false, not, List, [], ◌∷◌, IfOk, Option, Some, None, Contains};
ghost use Rattle.proxy_history.specs.ClientIds.{KeptId, holder_in, holds_some};
ghost use Rattle.holders.specs.Grants.{AreInOrder, is_taken};
ghost use Rattle.holders.specs.Kept.{FirstDue, held_by, held_unless, freed_by, kept_without, left_at, since_in};
ghost use Rattle.holders.specs.Calls.{Call, Grants, Releases, Leaves, Clears, held_after, StandsFor};

use crate::by_id::ById;
use kit_bytes::ConnId;
use std::alloc::{AllocError, Global};
use std::marker::Model;

/// Which connection holds which client id of the modem's services, and since when the ids are kept
/// whose holders went.
///
/// Connection 0 is the proxy itself, which holds an id while it releases it.
#[derive(Drop)]
pub struct Holders {
    held: ById,
    kept: ById,
    // nothing was kept before this time
    oldest: u64,
}

impl Model for Holders {
    ghost use Rattle.std.specs.Prelude.{◌≤◌, map};
    ghost use Rattle.std.specs.List.{AllByRecursion};
    ghost use Rattle.holders.specs.Kept.{Ids};
    ghost use Rattle.holders.specs.Rows.{kept_of};

    ghost Value = { Ids };

    ghost view = { λ h. record { held = h.held; kept = map kept_of h.kept } };

    ghost invariant = { λ h. AllByRecursion (λ g. h.oldest ≤ g.conn) h.kept };
}

impl Holders {
    /// Nobody holds an id, and none is kept. This takes all the memory that it will ever need.
    pub fn open(alloc: Global) -> Result<Self, AllocError>
        ensures { IfOk result (λ holders. holders ≡ record { held = []; kept = [] }) }
    {
        let held = ById::open(alloc)?;
        let kept = ById::open(alloc)?;
        Ok(Holders {
            held,
            kept,
            oldest: u64::MAX,
        })
    }

    /// The connection that holds the id.
    pub fn holder(&self, service: u8, cid: u8) -> Option<ConnId>
        ensures holder { result ≡ holder_in service cid self.now.held }
        ensures ordered { AreInOrder self.now.held }
        ensures stands { (calls : List Call) → StandsFor calls self.now → result ≡ holder_in service cid (held_after calls) }
    {
        self.held.number(service, cid)
    }

    /// Since when the id is kept: its holder went then, and nobody was granted it since.
    pub fn kept(&self, service: u8, cid: u8) -> Option<u64>
        ensures { result ≡ since_in service cid self.now.kept }
    {
        self.kept.number(service, cid)
    }

    /// The first id, in order of service and client id, that is kept for so long at this time. Times are
    /// in milliseconds; an id is due in the millisecond in which the time is over.
    ///
    /// Where none is due, this costs the same however many ids are held or kept.
    pub fn due(&self, time: u64, after: u64) -> Option<(u8, u8)>
        ensures { FirstDue after time self.now.kept result }
    {
        if time.saturating_sub(self.oldest) < after {
            return None;
        }
        self.kept.first_old(time, after)
    }

    /// Grants the id to the connection, unless another connection holds it: then nothing changes. An id
    /// that is held is kept no more.
    pub fn grant(&mut self, conn: ConnId, service: u8, cid: u8) -> bool
        ensures granted { result ≡ not (is_taken conn service cid self.old.held) }
        ensures ids { self.new ≡ held_by conn service cid self.old }
        ensures stands { (calls : List Call) → StandsFor calls self.old → StandsFor (Grants conn service cid ∷ calls) self.new }
    {
        let Some(holder) = self.held.number(service, cid) else {
            self.hold(conn, service, cid);
            return true;
        };
        if holder != conn {
            return false;
        }
        self.used(service, cid);
        true
    }

    /// The connection holds the id, whoever held it. An id that is held is kept no more.
    pub fn hold(&mut self, conn: ConnId, service: u8, cid: u8)
        ensures { self.new ≡ held_unless false conn service cid self.old }
    {
        self.held.set(conn, service, cid);
        self.used(service, cid);
    }

    /// The connection that holds the id used it: the id is kept no more.
    ///
    /// Where no id is kept, this costs the same however many are held.
    pub fn used(&mut self, service: u8, cid: u8)
        ensures ids { self.new ≡ record self.old { kept = kept_without service cid self.old.kept } }
        ensures stands { (calls : List Call) → StandsFor calls self.old → StandsFor calls self.new }
    {
        if self.kept.forget(service, cid) {
            self.oldest = self.kept.least();
        }
    }

    /// The connection gives the id up, where it holds it. The id isn't kept.
    pub fn released(&mut self, conn: ConnId, service: u8, cid: u8)
        ensures ids { self.new ≡ freed_by conn service cid self.old }
        ensures stands { (calls : List Call) → StandsFor calls self.old → StandsFor (Releases conn service cid ∷ calls) self.new }
    {
        self.held.forget_both(conn, service, cid);
    }

    /// The connection went at this time: nobody holds its ids, and they are kept since then.
    pub fn left(&mut self, conn: ConnId, time: u64)
        ensures ids { self.new ≡ left_at conn time self.old }
        ensures stands { (calls : List Call) → StandsFor calls self.old → StandsFor (Leaves conn time ∷ calls) self.new }
    {
        self.held.hand_over(conn, time, &mut self.kept);
        self.held.forget_number(conn);
        self.oldest = self.kept.least();
    }

    /// Nobody holds an id any more, and none is kept.
    pub fn clear(&mut self)
        ensures ids { self.new ≡ record { held = []; kept = [] } }
        ensures stands { (calls : List Call) → StandsFor (Clears ∷ calls) self.new }
    {
        self.held.clear();
        self.kept.clear();
        self.oldest = u64::MAX;
    }

    /// Whether the connection holds some id of the service.
    pub fn holds_any(&self, conn: ConnId, service: u8) -> bool
        ensures holds { result ≡ holds_some conn service self.now.held }
        ensures stands { (calls : List Call) → StandsFor calls self.now → result ≡ holds_some conn service (held_after calls) }
    {
        self.held.has_some(conn, service)
    }
}
