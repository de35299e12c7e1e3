ghost use Rattle.std.specs.Prelude.{◌≡◌, ◌+◌, ◌*◌, ◌%◌, ◌<◌, ◌≤◌, ◌^◌, [], length, replicate, slice_index, slice_set, ℕ, List, fold, OnOk, OnErr, IfOk};
ghost use Rattle.core_bench.specs.Runs.{Run};
ghost use Rattle.rig_runs.specs.Draws.{turn_after, turns_after, next};
ghost use Rattle.rig_runs.specs.Rig as rig;
ghost use Rattle.rig_stage.specs.Ready.{IsReady, StaysReady};
ghost use Rattle.rig_stage.specs.Running.{Runs, IsCutShort};
ghost use Rattle.rig_play.specs.Play.{cast_of, script_of, Plays, Takes, Halts};

use crate::Protocol;
use crate::draws::Draws;
use crate::opening::{join_all, open_all};
use core_bench::Bench;
use rig_stage::Stage;
use std::alloc::{AllocError, Global};
use std::marker::Model;

/// The modem holds at most so many messages when a request is sent.
const MOST_HELD: usize = 200;

/// How long a turn of the clock is, in milliseconds.
const TICK: u64 = 1_000;

/// How long the one behind all turns is, in milliseconds.
const LAST_TICK: u64 = 60_000;

/// Clients, named from 1 on, that open the device and then take turns, on a stage.
#[derive(Drop)]
pub(crate) struct Players<P: Protocol> {
    alloc: Global,
    stage: Stage<P::Modem>,
    // the number of each one's next request
    numbers: Vec<u16>,
}

impl<P: Protocol> Model for Players<P> {
    ghost use Rattle.rig_play.specs.Play.{Party};

    ghost Value = { Party P.Modem };

    ghost view = { λ p. record { world = p.stage; numbers = p.numbers.items } };
}

/// Has so many clients join a core that nothing has happened to, and open the device, one after the
/// other. Then so many turns are taken, which are drawn from a number, and in the end all messages that
/// are held arrive, and all that still waits for its answer expires.
pub(crate) fn play_all<P: Protocol, B: Bench>(
    alloc: Global,
    bench: &mut B,
    clients: u8,
    turns: u32,
    number: u64,
) -> Result<(), AllocError>
    requires ready { IsReady (B.is_held bench.old) (B.face bench.old) }
    requires new { (B.face bench.old).greatest ≡ 0 }
    requires some { 0 < clients }
    ensures ready { OnOk result (IsReady (B.is_held bench.new) (B.face bench.new)) }
    ensures runs { OnOk result ((opened : Run) (earlier : List Run) →
        Runs B.keeps B.runs P.proxy opened earlier [] bench.old →
        Runs B.keeps B.runs P.proxy opened earlier (rig.rig (cast_of P.proxy P.answers P.Modem.Framing.size clients) (script_of P.first P.second P.asks P.FIRST_NUMBER) turns number) bench.new) }
    ensures stops { OnErr result ((opened : Run) (earlier : List Run) →
        Runs B.keeps B.runs P.proxy opened earlier [] bench.old →
        IsCutShort opened earlier (rig.rig (cast_of P.proxy P.answers P.Modem.Framing.size clients) (script_of P.first P.second P.asks P.FIRST_NUMBER) turns number) (B.runs bench.new)) }
{
    let mut players: Players<P> = Players::open(alloc, bench, clients)?;
    players.take_turns(bench, turns, number)?;
    players.end(bench)?;
    Ok(())
}

impl<P: Protocol> Players<P> {
    // So many clients join and open the device.
    fn open<B: Bench>(alloc: Global, bench: &mut B, clients: u8) -> Result<Self, AllocError>
        requires ready { IsReady (B.is_held bench.old) (B.face bench.old) }
        requires new { (B.face bench.old).greatest ≡ 0 }
        ensures ready { OnOk result (IsReady (B.is_held bench.new) (B.face bench.new)) }
        ensures clients { IfOk result (λ players. players.world.clients ≡ clients) }
        ensures numbers { IfOk result (λ players. length players.numbers ≡ clients) }
        ensures time { IfOk result (λ players. players.world.time ≡ 0) }
        ensures plays { IfOk result (λ players. (opened : Run) (earlier : List Run) →
            Runs B.keeps B.runs P.proxy opened earlier [] bench.old →
            Plays B.keeps B.runs P.Modem.keeps P.Modem.Framing.size (script_of P.first P.second P.asks P.FIRST_NUMBER) (cast_of P.proxy P.answers P.Modem.Framing.size clients) opened earlier
            (rig.ready (cast_of P.proxy P.answers P.Modem.Framing.size clients) (script_of P.first P.second P.asks P.FIRST_NUMBER)) players bench.new) }
        ensures stops { OnErr result ((opened : Run) (earlier : List Run) →
            Runs B.keeps B.runs P.proxy opened earlier [] bench.old →
            IsCutShort opened earlier (rig.ready (cast_of P.proxy P.answers P.Modem.Framing.size clients) (script_of P.first P.second P.asks P.FIRST_NUMBER)).events (B.runs bench.new)) }
    {
        let mut stage = Stage::new(alloc, P::modem(alloc)?, clients);
        join_all(&mut stage, bench, clients)?;
        open_all::<P, B>(alloc, &mut stage, bench, clients)?;
        let numbers = first_numbers(alloc, P::FIRST_NUMBER, clients)?;
        Ok(Players {
            alloc,
            stage,
            numbers,
        })
    }

    // Takes so many turns, which are drawn from a number.
    fn take_turns<B: Bench>(
        &mut self,
        bench: &mut B,
        turns: u32,
        number: u64,
    ) -> Result<(), AllocError>
        requires ready { IsReady (B.is_held bench.old) (B.face bench.old) }
        requires some { 0 < self.old.world.clients }
        requires numbers { length self.old.numbers ≡ self.old.world.clients }
        requires time { self.old.world.time ≡ 0 }
        ensures ready { OnOk result (IsReady (B.is_held bench.new) (B.face bench.new)) }
        ensures clients { OnOk result (self.new.world.clients ≡ self.old.world.clients) }
        ensures time { OnOk result (self.new.world.time ≤ TICK * turns) }
        ensures takes { OnOk result (Takes B.keeps B.runs P.Modem.keeps P.Modem.Framing.size (script_of P.first P.second P.asks P.FIRST_NUMBER)
            (λ cast stage. fold (rig.play cast (script_of P.first P.second P.asks P.FIRST_NUMBER)) stage (turns_after (length cast.clients) turns number)) self.old bench.old self.new bench.new) }
        ensures stops { OnErr result (Halts B.keeps B.runs P.Modem.keeps P.Modem.Framing.size (script_of P.first P.second P.asks P.FIRST_NUMBER)
            (λ cast stage. fold (rig.play cast (script_of P.first P.second P.asks P.FIRST_NUMBER)) stage (turns_after (length cast.clients) turns number)) self.old bench.old bench.new) }
    {
        let mut draws = Draws::from(number);
        for _turn in 0..turns {
            self.turn(bench, &mut draws)?;
        }
        Ok(())
    }

    // Takes a turn: who may do something is drawn first, and then what.
    fn turn<B: Bench>(&mut self, bench: &mut B, draws: &mut Draws) -> Result<(), AllocError>
        requires ready { IsReady (B.is_held bench.old) (B.face bench.old) }
        requires some { 0 < self.old.world.clients }
        requires numbers { length self.old.numbers ≡ self.old.world.clients }
        requires fits { self.old.world.time + TICK < 2 ^ 64 }
        ensures ready { OnOk result (StaysReady (B.is_held bench.new) (B.face bench.old) (B.face bench.new)) }
        ensures clients { OnOk result (self.new.world.clients ≡ self.old.world.clients) }
        ensures numbers { OnOk result (length self.new.numbers ≡ length self.old.numbers) }
        ensures time { OnOk result (self.new.world.time ≤ self.old.world.time + TICK) }
        ensures drawn { draws.new.x ≡ next (next draws.old.x) }
        ensures takes { OnOk result (Takes B.keeps B.runs P.Modem.keeps P.Modem.Framing.size (script_of P.first P.second P.asks P.FIRST_NUMBER)
            (λ cast stage. rig.play cast (script_of P.first P.second P.asks P.FIRST_NUMBER) stage (turn_after (length cast.clients) draws.old.x)) self.old bench.old self.new bench.new) }
        ensures stops { OnErr result (Halts B.keeps B.runs P.Modem.keeps P.Modem.Framing.size (script_of P.first P.second P.asks P.FIRST_NUMBER)
            (λ cast stage. rig.play cast (script_of P.first P.second P.asks P.FIRST_NUMBER) stage (turn_after (length cast.clients) draws.old.x)) self.old bench.old bench.new) }
    {
        let clients = self.stage.clients();
        let index = draws.below(u64::from(clients)) as u8;
        let choice = draws.below(8);
        self.act(bench, index, choice)?;
        Ok(())
    }

    // What is drawn is done.
    fn act<B: Bench>(&mut self, bench: &mut B, index: u8, choice: u64) -> Result<(), AllocError>
        requires ready { IsReady (B.is_held bench.old) (B.face bench.old) }
        requires client { index < length self.old.numbers }
        requires small { index < 255 }
        requires choice { choice < 8 }
        requires fits { self.old.world.time + TICK < 2 ^ 64 }
        ensures ready { OnOk result (StaysReady (B.is_held bench.new) (B.face bench.old) (B.face bench.new)) }
        ensures clients { OnOk result (self.new.world.clients ≡ self.old.world.clients) }
        ensures numbers { OnOk result (length self.new.numbers ≡ length self.old.numbers) }
        ensures time { OnOk result (self.new.world.time ≤ self.old.world.time + TICK) }
        ensures takes { OnOk result (Takes B.keeps B.runs P.Modem.keeps P.Modem.Framing.size (script_of P.first P.second P.asks P.FIRST_NUMBER)
            (λ cast stage. rig.play cast (script_of P.first P.second P.asks P.FIRST_NUMBER) stage (record { client = index + 1; choice = choice })) self.old bench.old self.new bench.new) }
        ensures stops { OnErr result (Halts B.keeps B.runs P.Modem.keeps P.Modem.Framing.size (script_of P.first P.second P.asks P.FIRST_NUMBER)
            (λ cast stage. rig.play cast (script_of P.first P.second P.asks P.FIRST_NUMBER) stage (record { client = index + 1; choice = choice })) self.old bench.old bench.new) }
    {
        if choice < 4 {
            self.request_or_arrive(bench, index, choice)
        } else if choice < 6 {
            self.stage.longest_arrives(bench)
        } else if choice == 6 {
            self.stage.shortest_arrives(bench)
        } else {
            self.stage.pass(bench, TICK)
        }
    }

    // A client sends its next request, unless too many messages are held: then one of those arrives.
    fn request_or_arrive<B: Bench>(
        &mut self,
        bench: &mut B,
        index: u8,
        choice: u64,
    ) -> Result<(), AllocError>
        requires ready { IsReady (B.is_held bench.old) (B.face bench.old) }
        requires client { index < length self.old.numbers }
        requires small { index < 255 }
        ensures ready { OnOk result (StaysReady (B.is_held bench.new) (B.face bench.old) (B.face bench.new)) }
        ensures clients { OnOk result (self.new.world.clients ≡ self.old.world.clients) }
        ensures numbers { OnOk result (length self.new.numbers ≡ length self.old.numbers) }
        ensures time { OnOk result (self.new.world.time ≡ self.old.world.time) }
        ensures takes { OnOk result (Takes B.keeps B.runs P.Modem.keeps P.Modem.Framing.size (script_of P.first P.second P.asks P.FIRST_NUMBER)
            (λ cast stage. rig.request_or_arrive cast (script_of P.first P.second P.asks P.FIRST_NUMBER) (record { client = index + 1; choice = choice }) stage) self.old bench.old self.new bench.new) }
        ensures stops { OnErr result (Halts B.keeps B.runs P.Modem.keeps P.Modem.Framing.size (script_of P.first P.second P.asks P.FIRST_NUMBER)
            (λ cast stage. rig.request_or_arrive cast (script_of P.first P.second P.asks P.FIRST_NUMBER) (record { client = index + 1; choice = choice }) stage) self.old bench.old bench.new) }
    {
        if self.stage.held() >= MOST_HELD {
            return self.stage.longest_arrives(bench);
        }
        let number = take_number(&mut self.numbers, usize::from(index));
        let message = P::request(self.alloc, index + 1, choice, number)?;
        self.stage
            .say(bench, u64::from(index) + 1, message.as_slice())
    }

    // All messages that are held arrive, and all that still waits for its answer expires.
    fn end<B: Bench>(&mut self, bench: &mut B) -> Result<(), AllocError>
        requires ready { IsReady (B.is_held bench.old) (B.face bench.old) }
        requires fits { self.old.world.time + LAST_TICK < 2 ^ 64 }
        ensures ready { OnOk result (IsReady (B.is_held bench.new) (B.face bench.new)) }
        ensures takes { OnOk result (Takes B.keeps B.runs P.Modem.keeps P.Modem.Framing.size (script_of P.first P.second P.asks P.FIRST_NUMBER) rig.ended self.old bench.old self.new bench.new) }
        ensures stops { OnErr result (Halts B.keeps B.runs P.Modem.keeps P.Modem.Framing.size (script_of P.first P.second P.asks P.FIRST_NUMBER) rig.ended self.old bench.old bench.new) }
    {
        self.stage.all_arrive(bench)?;
        self.stage.pass(bench, LAST_TICK)?;
        Ok(())
    }
}

// The number of a client's next request, behind which the next one comes.
fn take_number(numbers: &mut Vec<u16>, place: usize) -> u16
    requires { place < length numbers.old.items }
    ensures number { result ≡ slice_index numbers.old.items place }
    ensures next { numbers.new.items ≡ slice_set numbers.old.items place (slice_index numbers.old.items place % 65535 + 1) }
{
    let number = numbers[place];
    numbers[place] = number % 65_535 + 1;
    number
}

// So many clients begin with this number.
fn first_numbers(alloc: Global, number: u16, clients: u8) -> Result<Vec<u16>, AllocError>
    ensures { IfOk result (λ numbers. numbers.items ≡ replicate clients number) }
{
    Ok(vec![in alloc; number; usize::from(clients)]?)
}
