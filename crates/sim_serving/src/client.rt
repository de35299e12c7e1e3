ghost use Rattle.std.specs.Prelude.{◌≡◌, ◌≤◌, ◌==◌, ℕ, [], List, true, length, nat_lt, IfOk, OnOk, Ok};
ghost use Rattle.framing.specs.Cutting.{cut};
ghost use Rattle.framing.specs.Framing.{IsPartial};
ghost use Rattle.served_sim.specs.Conduct.{Conduct};
ghost use Rattle.sim_serving.specs.Core.{no_replies};
ghost use Rattle.sim_serving.specs.Hearing.{Answers, cut_of, goes_on, is_good, ticks_on, took};

use crate::replies::Replies;
use framing::{Cutter, LONGEST_PIECE};
use kit_bytes::{ConnId, Cut};
use served_sim::ServedSim;
use std::alloc::{AllocError, Global};
use std::marker::Model;

/// A client that is there.
#[derive(Drop)]
pub struct Client<S: ServedSim> {
    name: ConnId,
    stream: Cutter<S::Framing>,
    replies: Replies,
}

impl<S: ServedSim> Model for Client<S> {
    ghost use Rattle.framing.specs.Framing.{IsPartial};
    ghost use Rattle.sim_serving.specs.Core as core;

    ghost Value = { core.Client };

    ghost view = { λ k. record { name = k.name; rest = k.stream.rest; replies = k.replies } };

    ghost invariant = { λ k. IsPartial S.Framing.size k.stream.rest };
}

impl<S: ServedSim> Client<S> {
    /// One that has joined under this name.
    pub fn open(alloc: Global, name: ConnId) -> Result<Self, AllocError>
        ensures { IfOk result (λ client. client ≡ record { name = name; rest = []; replies = no_replies }) }
    {
        Ok(Client {
            name,
            stream: Cutter::open(alloc)?,
            replies: Replies::new(alloc),
        })
    }

    pub fn name(&self) -> ConnId
        ensures { result ≡ self.now.name }
    {
        self.name
    }

    /// Has the modem asked what the next piece of its stream makes whole, takes in the answers, and
    /// says whether the stream is good behind that and the modem doesn't hang up.
    pub fn hear(&mut self, piece: &[u8], sim: &mut S) -> Result<bool, AllocError>
        requires { length piece.now ≤ LONGEST_PIECE }
        ensures name { self.new.name ≡ self.old.name }
        ensures goes_on { IfOk result (λ good. (ticks : ℕ) (conduct : Conduct) (before : List (List ℕ)) → S.keeps ticks conduct before sim.old → good ≡ goes_on S.Framing.size conduct before piece.now self.old) }
        ensures answers { OnOk result ((ticks : ℕ) (conduct : Conduct) (before : List (List ℕ)) → S.keeps ticks conduct before sim.old →
            Answers S.keeps ticks conduct before (cut_of S.Framing.size piece.now self.old).messages sim.new self.old.replies self.new.replies) }
        ensures rest { IfOk result (λ good. good ≡ true → self.new.rest ≡ (cut_of S.Framing.size piece.now self.old).rest) }
    {
        self.stream.push(piece);
        let good = ask_all(&mut self.stream, &mut self.replies, sim);
        if matches!(good, Ok(true)) {
            return good;
        }
        self.stream.restart();
        good
    }

    /// The bytes that wait for it.
    pub fn queued(&self) -> &[u8]
        ensures { result.now ≡ self.now.replies.waiting }
    {
        self.replies.front()
    }

    /// Whether bytes wait for it.
    pub fn is_waiting(&self) -> bool
        ensures { result ≡ nat_lt 0 (length self.now.replies.waiting) }
    {
        !self.replies.is_empty()
    }

    /// Its socket took the first so many bytes.
    pub fn take(&mut self, count: usize)
        requires { count ≤ length self.old.replies.waiting }
        ensures { self.new ≡ took count self.old }
    {
        self.replies.taken(count);
    }

    /// The clock ticks, and the modem tells this.
    pub fn tick(&mut self, told: &[u8]) -> Result<(), AllocError>
        ensures { OnOk result (self.new ≡ ticks_on told.now self.old) }
    {
        self.replies.tick(told)?;
        Ok(())
    }
}

// Has the modem asked the whole messages, up to the first at which it hangs up, takes in its answers, and
// says whether the stream is good behind them and it doesn't hang up.
fn ask_all<S: ServedSim>(
    stream: &mut Cutter<S::Framing>,
    replies: &mut Replies,
    sim: &mut S,
) -> Result<bool, AllocError>
    ensures good { IfOk result (λ good. (ticks : ℕ) (conduct : Conduct) (before : List (List ℕ)) → S.keeps ticks conduct before sim.old → good ≡ is_good S.Framing.size conduct before stream.old.rest) }
    ensures answers { OnOk result ((ticks : ℕ) (conduct : Conduct) (before : List (List ℕ)) → S.keeps ticks conduct before sim.old →
        Answers S.keeps ticks conduct before (cut S.Framing.size stream.old.rest).messages sim.new replies.old replies.new) }
    ensures rest { IfOk result (λ good. good ≡ true → (stream.new.rest ≡ (cut S.Framing.size stream.old.rest).rest) × IsPartial S.Framing.size stream.new.rest) }
{
    loop {
        match stream.next() {
            Cut::Whole(span) => {
                let reply = sim.ask(stream.bytes(span))?;
                replies.add(reply.messages, reply.late)?;
                if reply.hangs_up {
                    return Ok(false);
                }
            }
            Cut::NeedMore => return Ok(true),
            Cut::Bad(_) => return Ok(false),
        }
    }
}
