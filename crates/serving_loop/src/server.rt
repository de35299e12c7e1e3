ghost use Rattle.std.specs.Prelude.{◌≡◌, ◌∷◌, [], true, ℕ, List, Some, OnOk, OnErr};
ghost use Rattle.many_history.specs.Events as history;
ghost use Rattle.many_io.specs.Events.{event_of};
ghost use Rattle.many_serving.specs.Proxy.{ManyProxy};
ghost use Rattle.many_serving.specs.Ends.{are_away};
ghost use Rattle.serving_loop.specs.Face.{CanMeet, BringsIn, greatest_after};
ghost use Rattle.serving_loop.specs.Cores.{IsKnown, Makes, Stands, StandsAfter};
ghost use Rattle.serving_loop.specs.Server.{emptied_after, is_idle_at, is_lost_at, end_at};

use crate::blocked::Blocked;
use crate::many_core::ManyProxyCore;
use hub_io::{ServeEnd, Until};
use many_io::ManyEvent;
use std::alloc::AllocError;

/// A proxy, and what serving it has to remember.
#[derive(Drop)]
pub struct Server<C> {
    pub core: C,
    /// The clients whose sockets take nothing now.
    pub blocked: Blocked,
    /// The devices whose modems take nothing now.
    pub modems: Blocked,
    /// When the last connection went, in milliseconds; 0 where none joined.
    pub emptied: u64,
}

impl<C: ManyProxyCore> Server<C> {
    /// A proxy that nothing has happened to yet.
    pub fn open(core: C) -> Self
        ensures { result ≡ record { core = core; blocked = []; modems = []; emptied = 0 } }
    {
        Server {
            core,
            blocked: Blocked::none(),
            modems: Blocked::none(),
            emptied: 0,
        }
    }

    /// Has the proxy meet an event.
    pub fn meet(&mut self, event: ManyEvent<'_>) -> Result<(), AllocError>
        requires can { CanMeet (event_of event) (C.face self.old.core) }
        requires known { IsKnown C.keeps self.old.core }
        ensures stands { OnOk result ((p : ManyProxy) (past : List history.ManyEvent) → Stands C.keeps C.face p past self.old.core → StandsAfter C.keeps C.face p (event_of event.entry ∷ past) self.new.core) }
        ensures known { OnOk result (IsKnown C.keeps self.new.core) }
        ensures makes { OnOk result (Makes (event_of event.entry) (C.face self.old.core) (C.face self.new.core)) }
        ensures devices { OnOk result ((C.face self.new.core).devices ≡ (C.face self.old.core).devices) }
        ensures greatest { OnOk result ((C.face self.new.core).greatest ≡ greatest_after (event_of event.entry) (C.face self.old.core).greatest) }
        ensures emptied { OnOk result (self.new.emptied ≡ emptied_after (C.face self.old.core) self.old.emptied (C.face self.new.core)) }
        ensures blocked { self.new.blocked ≡ self.old.blocked }
        ensures modems { self.new.modems ≡ self.old.modems }
        ensures memory { OnErr result (C.lacks_memory (event_of event.entry)) }
        ensures brings { OnErr result (BringsIn (event_of event.entry)) }
    {
        let was_nobody = self.core.present() == 0;
        self.core.step(event)?;
        if !was_nobody {
            self.emptied = self.core.time();
        }
        Ok(())
    }

    /// Has the proxy meet an event that brings nothing in.
    pub fn note(&mut self, event: ManyEvent<'_>)
        requires can { CanMeet (event_of event) (C.face self.old.core) }
        requires known { IsKnown C.keeps self.old.core }
        requires quiet { BringsIn (event_of event) → ⊥ }
        ensures stands { (p : ManyProxy) (past : List history.ManyEvent) → Stands C.keeps C.face p past self.old.core → StandsAfter C.keeps C.face p (event_of event.entry ∷ past) self.new.core }
        ensures known { IsKnown C.keeps self.new.core }
        ensures makes { Makes (event_of event.entry) (C.face self.old.core) (C.face self.new.core) }
        ensures devices { (C.face self.new.core).devices ≡ (C.face self.old.core).devices }
        ensures greatest { (C.face self.new.core).greatest ≡ greatest_after (event_of event.entry) (C.face self.old.core).greatest }
        ensures emptied { self.new.emptied ≡ emptied_after (C.face self.old.core) self.old.emptied (C.face self.new.core) }
        ensures blocked { self.new.blocked ≡ self.old.blocked }
        ensures modems { self.new.modems ≡ self.old.modems }
    {
        match self.meet(event) {
            Ok(()) => {}
            Err(_) => unreachable!(),
        }
    }

    /// Whether nobody has been there for so many milliseconds.
    fn is_idle(&self, limit: Option<u64>) -> bool
        ensures { result ≡ is_idle_at limit (C.face self.now.core) self.now.emptied }
    {
        match limit {
            Some(limit) => {
                let time = self.core.time();
                self.core.present() == 0 && self.emptied <= time && limit <= time - self.emptied
            }
            None => false,
        }
    }

    /// Whether all devices are away.
    fn all_away(&self) -> bool
        ensures { result ≡ are_away (C.face self.now.core).away (C.face self.now.core).devices }
    {
        for device in 0..self.core.devices() {
            if !self.core.away(device) {
                return false;
            }
        }
        true
    }

    /// Why the serving ends at an event, where it does: the clock shows that nobody has been there for
    /// so many milliseconds, or it is told while all devices are away.
    pub fn end_at(&self, event: ManyEvent<'_>, until: Until) -> Option<ServeEnd>
        ensures end { result ≡ end_at (event_of event.entry) until (C.face self.now.core) self.now.emptied }
        ensures lost { result ≡ Some ServeEnd.Lost → until.lost ≡ true }
    {
        match event {
            ManyEvent::Now(_) if self.is_idle(until.empty) => Some(ServeEnd::Empty),
            ManyEvent::Now(_) if until.lost && self.all_away() => Some(ServeEnd::Lost),
            _ => None,
        }
    }
}
