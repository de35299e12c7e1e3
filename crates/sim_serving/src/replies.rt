ghost use Rattle.std.specs.Prelude.{◌≡◌, ◌≤◌, ◌==◌, drop, length, OnOk};
ghost use Rattle.sim_serving.specs.Core.{no_replies};
ghost use Rattle.sim_serving.specs.Hearing.{all_passed, passed, sooner, ticked, with_messages};

use crate::queue::Queue;
use kit_bytes::Octets;
use std::alloc::{AllocError, Global};
use std::marker::Model;
use std::mem::replace;

/// Messages that go in so many ticks of the clock.
#[derive(Drop)]
pub struct Late {
    pub ticks: u32,
    pub messages: Octets,
}

/// What a client is to get: the bytes that wait for its socket, and the messages that go later.
#[derive(Drop)]
pub struct Replies {
    alloc: Global,
    queue: Queue,
    late: Vec<Late>,
}

impl Model for Replies {
    ghost use Rattle.sim_serving.specs.Core as core;

    ghost Value = { core.Replies };

    ghost view = { λ replies. record { waiting = replies.queue; late = replies.late.items } };
}

impl Replies {
    /// None, which take no memory.
    pub fn new(alloc: Global) -> Self
        ensures { result ≡ no_replies }
    {
        Replies {
            alloc,
            queue: Queue::new(alloc),
            late: Vec::new(alloc),
        }
    }

    /// All the bytes that wait, the first to go first.
    pub fn front(&self) -> &[u8]
        ensures { result.now ≡ self.now.waiting }
    {
        self.queue.front()
    }

    /// Whether no bytes wait.
    pub fn is_empty(&self) -> bool
        ensures { result ≡ (length self.now.waiting == 0) }
    {
        self.queue.is_empty()
    }

    /// The first so many bytes were taken, and wait no more.
    pub fn taken(&mut self, count: usize)
        requires { count ≤ length self.old.waiting }
        ensures { self.new ≡ record self.old { waiting = drop count self.old.waiting } }
    {
        self.queue.taken(count);
    }

    /// Takes in messages that go in so many ticks; 0 is at once.
    pub fn add(&mut self, messages: Octets, ticks: u32) -> Result<(), AllocError>
        ensures { OnOk result (self.new ≡ with_messages ticks messages self.old) }
    {
        if ticks == 0 {
            self.queue.add(messages.as_slice())?;
        } else {
            self.late.push(Late { ticks, messages })?;
        }
        Ok(())
    }

    /// The clock ticks: the messages go that were due in one tick, and then these.
    pub fn tick(&mut self, told: &[u8]) -> Result<(), AllocError>
        ensures { OnOk result (self.new ≡ ticked told.now self.old) }
    {
        let late = replace(&mut self.late, Vec::new(self.alloc));
        pass_all(self, late)?;
        self.queue.add(told)?;
        Ok(())
    }

    // Takes in what was late before a tick.
    fn pass(&mut self, one: Late) -> Result<(), AllocError>
        ensures { OnOk result (self.new ≡ passed one self.old) }
    {
        if one.ticks == 1 {
            self.queue.add(one.messages.as_slice())?;
        } else {
            self.late.push(sooner(one))?;
        }
        Ok(())
    }
}

// Takes in what was late before a tick, one after another.
fn pass_all(replies: &mut Replies, late: Vec<Late>) -> Result<(), AllocError>
    ensures { OnOk result (replies.new ≡ all_passed late.items replies.old) }
{
    for one in late {
        replies.pass(one)?;
    }
    Ok(())
}

fn sooner(one: Late) -> Late
    ensures { result ≡ sooner one }
{
    Late {
        ticks: one.ticks.saturating_sub(1),
        messages: one.messages,
    }
}
