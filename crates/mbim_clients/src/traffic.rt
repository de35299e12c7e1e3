ghost use Rattle.std.specs.Prelude.{◌≡◌, ◌+◌, ◌≤◌, ◌&&◌, ◌==◌, ◌++◌, length, option_map, IfOk, IfSome};
ghost use Rattle.std.specs.List.{list_any};
ghost use Rattle.outbox.specs.Queue.{takes, clears};
ghost use Rattle.outbox.specs.Queue as queue;
ghost use Rattle.number_space.specs.declared.space.Row.{Row};
ghost use Rattle.number_space.specs.Table.{row_of, gives_number, answers, first_due, expires, orphans, resets};
ghost use Rattle.number_space.specs.Table as numbers;
ghost use Rattle.mbim_state.specs.declared.asked.Asked.{Asked as NotedAsked};
ghost use Rattle.mbim_clients.specs.Traffic.{has_share, number_for, queues};
ghost use Rattle.outbox.specs.Fronts.{IsFrontOf};

use kit_bytes::ConnId;
use mbim_state::Asked;
use number_space::Space;
use outbox::Outbox;
use std::alloc::{AllocError, Global};
use std::marker::Model;

/// How many bytes wait for the modem at most.
pub const OUTBOX_LIMIT: usize = 1_048_576;

/// How many numbers may be in use.
const NUMBER_LIMIT: u32 = 256;

/// How many requests of one client wait at most.
const SHARE_LIMIT: u32 = 16;

/// What stands between the clients and the modem: the numbers in use, and the bytes that wait for the
/// modem.
#[derive(Drop)]
pub struct Traffic {
    numbers: Space<Asked>,
    outbox: Outbox,
}

impl Model for Traffic {
    ghost use Rattle.std.specs.Prelude.{◌≡◌};
    ghost use Rattle.mbim_clients.specs.Traffic as traffic;

    ghost Value = { traffic.Traffic };

    ghost view = { λ t. record { numbers = t.numbers; outbox = t.outbox } };

    ghost invariant = { λ t. record {
      limit : t.numbers.limit ≡ 256;
      top : t.numbers.top ≡ 4294967295;
      capacity : t.outbox.capacity ≡ 1048576;
    } };
}

impl Traffic {
    /// Nothing waits, and no number was given. It has the room that it will ever need.
    pub fn open(alloc: Global) -> Result<Self, AllocError>
        ensures { IfOk result (λ traffic. traffic ≡ record { numbers = numbers.opened 256 4294967295; outbox = queue.opened OUTBOX_LIMIT }) }
    {
        let outbox = Outbox::open(alloc, OUTBOX_LIMIT)?;
        let numbers = Space::open(alloc, NUMBER_LIMIT, u32::MAX)?;
        Ok(Traffic { numbers, outbox })
    }

    /// Gives a request of so many bytes the next number, where one is free and they find room.
    pub fn give(&mut self, count: usize, name: ConnId, asked: Asked, deadline: u64) -> Option<u32>
        ensures number { result ≡ number_for count self.old }
        ensures given { self.new ≡ record self.old { numbers = gives_number result name asked deadline self.old.numbers } }
        ensures room { IfSome result (λ _. length self.old.outbox.bytes + count ≤ OUTBOX_LIMIT) }
    {
        if self.outbox.room() < count {
            return None;
        }
        self.numbers.give(name, asked, deadline)
    }

    /// These bytes wait for the modem, behind the others, and all in one slice, since a pump is to be
    /// handed whole messages.
    pub fn queue(&mut self, bytes: &[u8])
        requires { length self.old.outbox.bytes + length bytes.now ≤ OUTBOX_LIMIT }
        ensures { self.new ≡ queues bytes.now self.old }
    {
        self.outbox.queue(bytes);
        self.outbox.straighten();
    }

    /// The bytes of both runs wait for the modem, one run behind the other, behind the others, and all
    /// in one slice.
    pub fn queue_both(&mut self, head: &[u8], rest: &[u8])
        requires { length self.old.outbox.bytes + length head.now + length rest.now ≤ OUTBOX_LIMIT }
        ensures { self.new ≡ queues (head.now ++ rest.now) self.old }
    {
        self.outbox.queue_both(head, rest);
        self.outbox.straighten();
    }

    /// The first of the bytes that wait for the modem; none only where none wait.
    pub fn queued(&self) -> &[u8]
        ensures { IsFrontOf result.now self.now.outbox.bytes }
    {
        self.outbox.front()
    }

    /// All the bytes that wait for the modem, in two parts.
    pub fn parts(&self) -> (&[u8], &[u8])
        ensures { result.0.now ++ result.1.now ≡ self.now.outbox.bytes }
    {
        self.outbox.parts()
    }

    /// The modem took the first so many of the bytes that wait for it.
    pub fn take(&mut self, count: usize)
        requires { count ≤ length self.old.outbox.bytes }
        ensures { self.new ≡ record self.old { outbox = takes count self.old.outbox } }
    {
        self.outbox.taken(count);
    }

    /// The sender, what is kept of its request, and whether it still waits, of a number in use.
    pub fn look(&self, number: u32) -> Option<(u64, Asked, bool)>
        ensures { result ≡ option_map (λ (row : Row NotedAsked). (row.conn, row.note, row.pending)) (row_of number self.now.numbers.rows) }
    {
        self.numbers.look(number)
    }

    /// The number is free again.
    pub fn free(&mut self, number: u32)
        ensures { self.new ≡ record self.old { numbers = answers number self.old.numbers } }
    {
        self.numbers.answer(number);
    }

    /// Takes the first request whose deadline came: its number stays in use, and nobody waits for it
    /// any more.
    pub fn expire(&mut self, time: u64) -> Option<(u64, Asked)>
        ensures due { result ≡ option_map (λ (row : Row NotedAsked). (row.conn, row.note)) (first_due time self.old.numbers.rows) }
        ensures traffic { self.new ≡ record self.old { numbers = expires time self.old.numbers } }
    {
        self.numbers.expire(time)
    }

    /// The connection of this name waits for nothing any more.
    pub fn give_up(&mut self, name: ConnId)
        ensures { self.new ≡ record self.old { numbers = orphans name self.old.numbers } }
    {
        self.numbers.orphan(name);
    }

    /// Whether the connection of this name waits for a number.
    pub fn is_awaited(&self, name: ConnId) -> bool
        ensures { result ≡ list_any (λ (row : Row NotedAsked). row.pending && (row.conn == name)) self.now.numbers.rows }
    {
        self.numbers.is_awaited(name)
    }

    /// Whether as many requests of the connection of this name wait as may.
    pub fn has_share(&self, name: ConnId) -> bool
        ensures { result ≡ has_share name self.now.numbers }
    {
        self.numbers.pending(name) >= SHARE_LIMIT
    }

    /// The modem knows of no number, and nothing waits for it.
    pub fn clear(&mut self)
        ensures { self.new ≡ record { numbers = resets self.old.numbers; outbox = clears self.old.outbox } }
    {
        self.numbers.reset();
        self.outbox.clear();
    }
}
