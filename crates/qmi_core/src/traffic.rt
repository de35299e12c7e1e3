ghost use Rattle.std.specs.Prelude.{◌≡◌, ◌≤◌, true, false, not, [], ◌++◌, length, drop, is_some, option_map, IfOk, IfSome, IsSome};
ghost use Rattle.qmux_frame.specs.Head.{is_control};
ghost use Rattle.qmux_frame.specs.Reply.{with_number};
ghost use Rattle.qmi_proxy.specs.Clients.{has_room};
ghost use Rattle.proxy_history.specs.ClientIds.{holder_in, holds_some, is_other};
ghost use Rattle.number_space.specs.Table.{first_due, expires};
ghost use Rattle.holders.specs.Grants.{AreInOrder, is_taken};
ghost use Rattle.holders.specs.Kept.{FirstDue};
ghost use Rattle.qmi_core.specs.State.{id_of, asks_under, grants_unless};
ghost use Rattle.qmi_state.specs.Traffic.{Row, traffic_of, of_control, with_numbers, row_numbered, number_at, gives_next, adopts_unless, frees, frees_id, gives_up, forgets, number_for_own};
ghost use Rattle.qmi_state.specs.Transitions.{share_of, shared_of, refusal_of, forwards_as, holder_at};
ghost use Rattle.outbox.specs.Fronts.{IsFrontOf};

use crate::errors::{DEVICE_IN_USE, INTERNAL, INVALID_CLIENT_ID, SHARE_PASSED};
use crate::message::{Message, release_message};
use holders::Holders;
use kit_bytes::ConnId;
use number_space::Space;
use outbox::Outbox;
use qmi_state::Asked;
use std::alloc::{AllocError, Global};
use std::marker::Model;

/// The proxy itself, which asks the modem to release ids and holds them meanwhile.
pub const PROXY: u64 = 0;

/// How many requests of one client wait in one space at most.
const SHARE_LIMIT: u32 = 16;

/// How many bytes wait for the modem at most.
const OUTBOX_LIMIT: usize = 1_048_576;

/// What stands between the clients and the modem: the numbers in use, the client ids that are held,
/// and the bytes that wait for the modem.
#[derive(Drop)]
pub struct Traffic {
    control: Space<Asked>,
    services: Space<Asked>,
    holders: Holders,
    outbox: Outbox,
}

impl Model for Traffic {
    ghost use Rattle.std.specs.Prelude.{◌≡◌};
    ghost use Rattle.qmi_state.specs.Traffic as traffic;

    ghost Value = { traffic.Traffic };

    ghost view = { λ d. record { control = d.control; services = d.services; held = d.holders.held; kept = d.holders.kept; waiting = d.outbox.bytes } };

    ghost invariant = { λ d. record {
      control : d.control.top ≡ 255;
      services : d.services.top ≡ 65535;
      capacity : d.outbox.capacity ≡ 1048576;
    } };
}

impl Traffic {
    /// Nothing happened yet. It has the room that it will ever need.
    pub fn open(alloc: Global) -> Result<Self, AllocError>
        ensures { IfOk result (λ traffic. traffic ≡ traffic_of []) }
    {
        let outbox = Outbox::open(alloc, OUTBOX_LIMIT)?;
        let holders = Holders::open(alloc)?;
        let control = Space::open(alloc, 255, 255)?;
        let services = Space::open(alloc, 1_024, 65_535)?;
        Ok(Traffic {
            control,
            services,
            holders,
            outbox,
        })
    }

    /// Meets a message that isn't for the proxy itself. It goes to the modem, or its sender is to be
    /// refused with an error.
    pub fn forward(
        &mut self,
        away: bool,
        deadline: u64,
        name: ConnId,
        message: &Message<'_>,
    ) -> Option<u16>
        ensures refusal { result ≡ refusal_of (shared_of away name message.now self.old) }
        ensures forwarded { self.new ≡ forwards_as (shared_of away name message.now self.old) deadline name message.now self.old }
    {
        if self.has_share(name, message) {
            return Some(SHARE_PASSED);
        }
        let holder = self.holder_at(message);
        if is_other(name, holder) {
            return Some(INVALID_CLIENT_ID);
        }
        if away {
            return Some(INTERNAL);
        }
        if !self.has_room(message) {
            return Some(DEVICE_IN_USE);
        }
        let Some(number) = self.give(name, message, deadline) else {
            return Some(DEVICE_IN_USE);
        };
        self.adopt(holder, name, message);
        self.queue(message, number);
        None
    }

    // The connection that holds the client id that the message uses.
    fn holder_at(&self, message: &Message<'_>) -> Option<u64>
        ensures holder { result ≡ holder_at message.now self.now }
        ensures ordered { IsSome result → AreInOrder self.now.held }
    {
        if message.uses_id() {
            self.holders
                .holder(message.used_service(), message.used_cid())
        } else {
            None
        }
    }

    // Whether as many requests of the sender wait in the message's space as may.
    fn has_share(&self, name: ConnId, message: &Message<'_>) -> bool
        ensures { result ≡ share_of name message.now self.now }
    {
        let waiting = if message.is_control() {
            self.control.pending(name)
        } else {
            self.services.pending(name)
        };
        waiting >= SHARE_LIMIT
    }

    fn has_room(&self, message: &Message<'_>) -> bool
        ensures { result ≡ has_room (length self.now.waiting) message.now }
    {
        message.bytes().len() <= self.outbox.room()
    }

    // The sender holds the client id that the message uses: it does already, or nobody does.
    fn adopt(&mut self, holder: Option<u64>, name: ConnId, message: &Message<'_>)
        requires holder { holder ≡ holder_at message.now self.old }
        requires free { is_other name holder ≡ false }
        requires ordered { IsSome holder → AreInOrder self.old.held }
        ensures { self.new ≡ adopts_unless (is_other name (holder_at message.now self.old)) name message.now self.old }
    {
        if !message.uses_id() {
            return;
        }
        let service = message.used_service();
        let cid = message.used_cid();
        if holder.is_some() {
            self.holders.used(service, cid);
        } else {
            self.grant(name, service, cid);
        }
    }

    // The message waits for the modem under this number, in one slice, since a pump is to be handed
    // whole messages.
    fn queue(&mut self, message: &Message<'_>, number: u16)
        requires fits { is_control message.now ≡ true → number ≤ 255 }
        requires room { has_room (length self.old.waiting) message.now ≡ true }
        ensures { self.new ≡ record self.old { waiting = self.old.waiting ++ with_number number message.now } }
    {
        let head = message.numbered(number);
        self.outbox.queue_both(&head, message.rest());
        self.outbox.straighten();
    }

    // Gives the message the next number of its space.
    fn give(&mut self, name: ConnId, message: &Message<'_>, deadline: u64) -> Option<u16>
        ensures number { result ≡ number_at message.now self.old }
        ensures given { self.new ≡ gives_next deadline name message.now self.old }
        ensures fits { IfSome result (λ number. is_control message.now ≡ true → number ≤ 255) }
    {
        let asked = message.asked();
        let number = if message.is_control() {
            self.control.give(name, asked, deadline)?
        } else {
            self.services.give(name, asked, deadline)?
        };
        Some(number as u16)
    }

    /// The connection that holds the client id.
    pub fn holder(&self, service: u8, cid: u8) -> Option<ConnId>
        ensures { result ≡ holder_in service cid self.now.held }
    {
        self.holders.holder(service, cid)
    }

    /// Whether the connection holds some client id of the service.
    pub fn holds_any(&self, name: ConnId, service: u8) -> bool
        ensures { result ≡ holds_some name service self.now.held }
    {
        self.holders.holds_any(name, service)
    }

    /// Grants the client id to the connection, unless another one holds it: then nothing changes.
    pub fn grant(&mut self, name: ConnId, service: u8, cid: u8) -> bool
        ensures granted { result ≡ not (is_taken name service cid self.old.held) }
        ensures grants { self.new ≡ grants_unless (is_taken name service cid self.old.held) name service cid self.old }
    {
        self.holders.grant(name, service, cid)
    }

    /// The connection gives the client id back.
    pub fn release(&mut self, name: ConnId, service: u8, cid: u8)
        ensures { self.new ≡ frees_id name service cid self.old }
    {
        self.holders.released(name, service, cid);
    }

    /// The first id that is kept for so long at this time.
    pub fn due(&self, time: u64, after: u64) -> Option<(u8, u8)>
        ensures { FirstDue after time self.now.kept result }
    {
        self.holders.due(time, after)
    }

    /// The proxy itself asks the modem to release the client id, and holds it from here on. Says
    /// whether it did: it doesn't where no number is free, or the message finds no room.
    pub fn ask_release(&mut self, service: u8, cid: u8, deadline: u64) -> bool
        ensures asked { result ≡ is_some (number_for_own (id_of service cid) self.old) }
        ensures traffic { self.new ≡ asks_under (number_for_own (id_of service cid) self.old) deadline (id_of service cid) self.old }
    {
        let bytes = release_message(service, cid);
        let message = Message::read(&bytes);
        if !self.has_room(&message) {
            return false;
        }
        let Some(number) = self.give(PROXY, &message, deadline) else {
            return false;
        };
        self.holders.hold(PROXY, service, cid);
        self.queue(&message, number);
        true
    }

    /// The sender, what is kept of its request, and whether it still waits, of a number in use; of
    /// service 0, or of all others.
    pub fn look(&self, control: bool, number: u16) -> Option<(u64, Asked, bool)>
        ensures { result ≡ option_map (λ (row : Row). (row.conn, row.note, row.pending)) (row_numbered number (of_control control self.now).rows) }
    {
        if control {
            self.control.look(u32::from(number))
        } else {
            self.services.look(u32::from(number))
        }
    }

    /// The number is free again.
    pub fn free(&mut self, control: bool, number: u16)
        ensures { self.new ≡ with_numbers control (frees number (of_control control self.old)) self.old }
    {
        if control {
            self.control.answer(u32::from(number));
        } else {
            self.services.answer(u32::from(number));
        }
    }

    /// Takes the first request whose deadline came: its number stays in use, and nobody waits for it
    /// any more.
    pub fn expire(&mut self, control: bool, time: u64) -> Option<(u64, Asked)>
        ensures due { result ≡ option_map (λ (row : Row). (row.conn, row.note)) (first_due time (of_control control self.old).rows) }
        ensures traffic { self.new ≡ with_numbers control (expires time (of_control control self.old)) self.old }
    {
        if control {
            self.control.expire(time)
        } else {
            self.services.expire(time)
        }
    }

    /// The connection of this name is gone: it waits for nothing and holds nothing, and its ids are
    /// kept since this time.
    pub fn give_up(&mut self, name: ConnId, time: u64)
        ensures { self.new ≡ gives_up name time self.old }
    {
        self.control.orphan(name);
        self.services.orphan(name);
        self.holders.left(name, time);
    }

    /// The modem knows of no number and no client id.
    pub fn forget(&mut self)
        ensures { self.new ≡ forgets self.old }
    {
        self.control.reset();
        self.services.reset();
        self.holders.clear();
    }

    /// No bytes wait for the modem any more.
    pub fn clear_queue(&mut self)
        ensures { self.new ≡ record self.old { waiting = [] } }
    {
        self.outbox.clear();
    }

    /// The modem took the first so many of the bytes that wait for it.
    pub fn take(&mut self, count: usize)
        requires { count ≤ length self.old.waiting }
        ensures { self.new ≡ record self.old { waiting = drop count self.old.waiting } }
    {
        self.outbox.taken(count);
    }

    /// The first of the bytes that wait for the modem; none only where none wait.
    pub fn queued(&self) -> &[u8]
        ensures { IsFrontOf result.now self.now.waiting }
    {
        self.outbox.front()
    }

    /// All the bytes that wait for the modem, in two parts.
    pub fn parts(&self) -> (&[u8], &[u8])
        ensures { result.0.now ++ result.1.now ≡ self.now.waiting }
    {
        self.outbox.parts()
    }
}

fn is_other(name: ConnId, holder: Option<u64>) -> bool
    ensures { result ≡ is_other name holder }
{
    match holder {
        Some(holder) => holder != name,
        None => false,
    }
}
