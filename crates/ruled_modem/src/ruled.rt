ghost use Rattle.std.specs.Prelude.{◌≡◌, ◌≤◌, ◌+◌, ◌++◌, ◌∷◌, [], ℕ, List, slice_get, IfOk, OnOk};
ghost use Rattle.framing.specs.Framing.{IsMessage};
ghost use Rattle.modem_rules.specs.Rules.{rules_view};
ghost use Rattle.sim_modem.specs.Sim.{Answering};
ghost use Rattle.ruled_modem.specs.Host.{host_after, longest};
ghost use Rattle.ruled_modem.specs.Keeping.{Counts, Keeps, failing, rules_for};
ghost use Rattle.ruled_modem.specs.Ruled.{conduct_by};
ghost use Rattle.ruled_modem.specs.Turns.{all_told, answer_by, answer_text, hangs_up, is_at, late_by, passed, passed_by, told_at};

use crate::by_kind::{ByKind, by_kind, rules_for};
use crate::counting::count;
use crate::host::Host;
use crate::replies::{indication, reply};
use crate::requests::kind_of;
use kit_bytes::{Kind, Octets};
use modem_rules::{AnswerRule, Failure, FaultRule, IndicationRule, RequestKind, Rules, When};
use served_sim::{Reply, ServedSim};
use sim_modem::Sim;
use std::alloc::{AllocError, Global};
use std::marker::Model;

/// A simulated modem of a kind that goes by rules.
#[derive(Drop)]
pub struct Ruled<S: Sim> {
    alloc: Global,
    kind: Kind,
    sim: S,
    host: Host,
    answers: ByKind<AnswerRule>,
    // of each how many requests of its kind there are to come until it, this one counted too; 0 is over
    faults: ByKind<FaultRule>,
    indications: ByKind<IndicationRule>,
    // those that are sent by the clock, and how often it has ticked
    timed: Vec<IndicationRule>,
    ticks: u64,
}

impl<S: Sim> Model for Ruled<S> {
    ghost use Rattle.ruled_modem.specs.Keeping as spec;

    ghost Value = { spec.Ruled S };

    ghost view = { λ r. record { kind = r.kind; sim = r.sim; host = r.host; answers = r.answers.entries; faults = r.faults.entries; indications = r.indications.entries; timed = r.timed.items; ticks = r.ticks } };
}

impl<S: Sim> Ruled<S> {
    /// A modem that goes by these rules, and is this one without them.
    pub fn open(alloc: Global, kind: Kind, rules: Rules, sim: S) -> Result<Self, AllocError>
        ensures { IfOk result (λ modem. (answers : Answering) → S.keeps answers [] sim → Keeps S.keeps 0 (conduct_by kind (rules_view rules) answers) [] modem) }
    {
        let answers = by_kind(alloc, rules.answers)?;
        let faults = by_kind(alloc, rules.faults)?;
        let indications = by_kind(alloc, rules.indications)?;
        Ok(Ruled {
            alloc,
            kind,
            sim,
            host: Host::new(alloc),
            answers: answers.table,
            faults: faults.table,
            indications: indications.table,
            timed: indications.others,
            ticks: 0,
        })
    }

    // What the modem does at a request of this kind.
    fn meet(&mut self, kind: &RequestKind, message: &[u8]) -> Result<Reply, AllocError>
        requires { IsMessage S.Framing.size message.now }
        ensures answers { IfOk result (λ reply. (answers : Answering) (past : List (List ℕ)) → S.keeps answers past self.old.sim →
            reply.messages ≡ answer_text self.old.kind answers past (longest self.old.host) message.now (failing (rules_for kind.now self.old.faults)) (slice_get (rules_for kind.now self.old.answers) 0)
            ++ all_told self.new.host (rules_for kind.now self.old.indications)) }
        ensures hangs_up { IfOk result (λ reply. reply.hangs_up ≡ hangs_up (failing (rules_for kind.now self.old.faults))) }
        ensures late { IfOk result (λ reply. reply.late ≡ late_by (failing (rules_for kind.now self.old.faults))) }
        ensures sim { OnOk result ((answers : Answering) (past : List (List ℕ)) → S.keeps answers past self.old.sim →
            S.keeps answers (passed past message.now (failing (rules_for kind.now self.old.faults)) (slice_get (rules_for kind.now self.old.answers) 0)) self.new.sim) }
        ensures host { OnOk result ((answers : Answering) (past : List (List ℕ)) → S.keeps answers past self.old.sim → self.old.host ≡ host_after self.old.kind answers past →
            self.new.host ≡ host_after self.old.kind answers (passed past message.now (failing (rules_for kind.now self.old.faults)) (slice_get (rules_for kind.now self.old.answers) 0))) }
        ensures rest { OnOk result (self.new ≡ record self.old { sim = self.new.sim; host = self.new.host; faults = self.new.faults }) }
        ensures counts { OnOk result (Counts kind.now self.old.faults self.new.faults) }
    {
        let failure = count(&mut self.faults, kind);
        let mut messages = self.answer(kind, failure, message)?;
        let told = rules_for(&self.indications, kind);
        add_indications(self.alloc, &self.host, told, &mut messages)?;
        Ok(Reply {
            messages,
            hangs_up: hangs_up(failure),
            late: late_by(failure),
        })
    }

    // The answer to a request of this kind: by how it fails, else by a rule, else the modem's own.
    fn answer(
        &mut self,
        kind: &RequestKind,
        failure: Option<Failure>,
        message: &[u8],
    ) -> Result<Octets, AllocError>
        requires { IsMessage S.Framing.size message.now }
        ensures answers { IfOk result (λ octets. (answers : Answering) (past : List (List ℕ)) → S.keeps answers past self.old.sim →
            octets ≡ answer_text self.old.kind answers past (longest self.old.host) message.now failure (slice_get (rules_for kind.now self.old.answers) 0)) }
        ensures sim { OnOk result ((answers : Answering) (past : List (List ℕ)) → S.keeps answers past self.old.sim →
            S.keeps answers (passed past message.now failure (slice_get (rules_for kind.now self.old.answers) 0)) self.new.sim) }
        ensures host { OnOk result ((answers : Answering) (past : List (List ℕ)) → S.keeps answers past self.old.sim → self.old.host ≡ host_after self.old.kind answers past →
            self.new.host ≡ host_after self.old.kind answers (passed past message.now failure (slice_get (rules_for kind.now self.old.answers) 0))) }
        ensures rest { OnOk result (self.new ≡ record self.old { sim = self.new.sim; host = self.new.host }) }
    {
        let longest = self.host.longest();
        match failure {
            Some(Failure::Refused(error)) => {
                Ok(reply(self.alloc, self.kind, longest, message, error, &[])?)
            }
            Some(Failure::Silent) | Some(Failure::HungUp) => Ok(Octets::new(self.alloc)),
            Some(Failure::Late(_)) | None => Ok(self.answer_by(kind, message)?),
        }
    }

    // The answer to one that doesn't fail: by a rule, else the modem's own.
    fn answer_by(&mut self, kind: &RequestKind, message: &[u8]) -> Result<Octets, AllocError>
        requires { IsMessage S.Framing.size message.now }
        ensures answers { IfOk result (λ octets. (answers : Answering) (past : List (List ℕ)) → S.keeps answers past self.old.sim →
            octets ≡ answer_by self.old.kind answers past (longest self.old.host) message.now (slice_get (rules_for kind.now self.old.answers) 0)) }
        ensures sim { OnOk result ((answers : Answering) (past : List (List ℕ)) → S.keeps answers past self.old.sim →
            S.keeps answers (passed_by past message.now (slice_get (rules_for kind.now self.old.answers) 0)) self.new.sim) }
        ensures host { OnOk result ((answers : Answering) (past : List (List ℕ)) → S.keeps answers past self.old.sim → self.old.host ≡ host_after self.old.kind answers past →
            self.new.host ≡ host_after self.old.kind answers (passed_by past message.now (slice_get (rules_for kind.now self.old.answers) 0))) }
        ensures rest { OnOk result (self.new ≡ record self.old { sim = self.new.sim; host = self.new.host }) }
    {
        let longest = self.host.longest();
        match rules_for(&self.answers, kind).first() {
            Some(rule) => {
                let data = rule.data.as_slice();
                Ok(reply(self.alloc, self.kind, longest, message, 0, data)?)
            }
            None => Ok(self.pass(message)?),
        }
    }

    // The modem's own answer.
    fn pass(&mut self, message: &[u8]) -> Result<Octets, AllocError>
        requires { IsMessage S.Framing.size message.now }
        ensures answers { IfOk result (λ octets. (answers : Answering) (past : List (List ℕ)) → S.keeps answers past self.old.sim → octets ≡ answers past message.now) }
        ensures sim { OnOk result ((answers : Answering) (past : List (List ℕ)) → S.keeps answers past self.old.sim → S.keeps answers (message.now ∷ past) self.new.sim) }
        ensures host { OnOk result ((answers : Answering) (past : List (List ℕ)) → S.keeps answers past self.old.sim → self.old.host ≡ host_after self.old.kind answers past →
            self.new.host ≡ host_after self.old.kind answers (message.now ∷ past)) }
        ensures rest { OnOk result (self.new ≡ record self.old { sim = self.new.sim; host = self.new.host }) }
    {
        let text = self.sim.ask(message)?;
        self.host
            .hear(self.alloc, self.kind, message, text.as_slice())?;
        Ok(text)
    }
}

// Whether a request that fails so ends its connection.
fn hangs_up(failure: Option<Failure>) -> bool
    ensures { result ≡ hangs_up failure }
{
    match failure {
        Some(Failure::HungUp) => true,
        _ => false,
    }
}

// After how many ticks goes what a request brings that fails so.
fn late_by(failure: Option<Failure>) -> u32
    ensures { result ≡ late_by failure }
{
    match failure {
        Some(Failure::Late(ticks)) => ticks,
        _ => 0,
    }
}

// Adds those of these indications that the host hears.
fn add_indications(
    alloc: Global,
    host: &Host,
    rules: &[IndicationRule],
    text: &mut Octets,
) -> Result<(), AllocError>
    ensures { OnOk result (text.new ≡ text.old ++ all_told host.now rules.now) }
{
    for rule in rules {
        if host.hears(&rule.kind) {
            let told = indication(alloc, host.longest(), &rule.kind, &rule.data)?;
            text.extend_from_slice(told.as_slice())?;
        }
    }
    Ok(())
}

// Adds those of these indications that are sent at this tick and that the host hears.
fn add_timed(
    alloc: Global,
    tick: u64,
    host: &Host,
    rules: &[IndicationRule],
    text: &mut Octets,
) -> Result<(), AllocError>
    ensures { OnOk result (text.new ≡ text.old ++ told_at tick host.now rules.now) }
{
    for rule in rules {
        if is_at(tick, rule.when) && host.hears(&rule.kind) {
            let told = indication(alloc, host.longest(), &rule.kind, &rule.data)?;
            text.extend_from_slice(told.as_slice())?;
        }
    }
    Ok(())
}

// Whether an indication is sent at this tick.
fn is_at(tick: u64, when: When) -> bool
    ensures { result ≡ is_at tick when }
{
    match when {
        When::After(_) => false,
        When::Each(ticks) => ticks != 0 && tick % u64::from(ticks) == 0,
    }
}

// Behind so many ticks (which come ten a second, so that they don't run out).
fn next_tick(ticks: u64) -> Result<u64, AllocError>
    ensures { IfOk result (λ next. next ≡ ticks + 1) }
{
    ticks.checked_add(1).ok_or(AllocError)
}

impl<S: Sim> ServedSim for Ruled<S> {
    type Framing = S::Framing;

    ghost keeps = { λ ticks conduct past ruled. Keeps S.keeps ticks conduct past ruled };

    ghost by_clock = { Unit {0} };

    fn ask(&mut self, message: &[u8]) -> Result<Reply, AllocError> {
        let Some(kind) = kind_of(self.kind, message) else {
            let messages = self.pass(message)?;
            return Ok(Reply {
                messages,
                hangs_up: false,
                late: 0,
            });
        };
        let reply = self.meet(&kind, message)?;
        Ok(reply)
    }

    fn tick(&mut self) -> Result<Option<Octets>, AllocError> {
        self.ticks = next_tick(self.ticks)?;
        let mut told = Octets::new(self.alloc);
        add_timed(self.alloc, self.ticks, &self.host, &self.timed, &mut told)?;
        Ok(Some(told))
    }
}
