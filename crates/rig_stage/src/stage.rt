ghost use Rattle.std.specs.Prelude.{◌≡◌, ◌+◌, ◌<◌, ◌≤◌, ◌^◌, ◌++◌, [], length, ℕ, List, OnOk, OnErr, IfOk};
ghost use Rattle.framing.specs.Cutting.{cut};
ghost use Rattle.framing.specs.Framing.{IsMessage};
ghost use Rattle.hub_io.specs.Events.{event_of};
ghost use Rattle.proxy_history.specs.Events.{greatest_after, Joined, Piece};
ghost use Rattle.proxy_history.specs.Orderly.{time_then};
ghost use Rattle.proxy_serving.specs.Face.{MayCome};
ghost use Rattle.rig_runs.specs.Rig.{join, pass, say};
ghost use Rattle.rig_runs.specs.Stage as rig;
ghost use Rattle.rig_stage.specs.Ready.{IsReady, StaysReady};
ghost use Rattle.rig_stage.specs.Stage.{Acts, Asks, Stops};

use crate::messages::{first_message, joined};
use crate::running::{clients_take, meet, modem_takes};
use core_bench::Bench;
use framing::LONGEST_PIECE;
use hub_io::Event;
use kit_bytes::{ConnId, Octets};
use sim_modem::Sim;
use std::alloc::{AllocError, Global};
use std::collections::VecDeque;
use std::marker::Model;

/// Clients and a simulated modem with a proxy between them, whose core runs on a bench.
///
/// Each takes at once all that waits for it, and the modem's messages are held until they arrive.
/// Where memory runs out in a call, the stage is only to be dropped.
#[derive(Drop)]
pub struct Stage<S: Sim> {
    alloc: Global,
    modem: S,
    // the modem's messages that haven't arrived, the one that is held longest first
    held: VecDeque<Octets>,
    // how many clients there are, named from 1 on
    clients: u8,
    // in milliseconds
    time: u64,
}

impl<S: Sim> Model for Stage<S> {
    ghost use Rattle.rig_stage.specs.Stage.{World};

    ghost Value = { World S };

    ghost view = { λ s. record { modem = s.modem; held = s.held.items; clients = s.clients; time = s.time } };
}

impl<S: Sim> Stage<S> {
    /// So many clients, of whom nobody has joined, and a modem that was asked nothing.
    pub fn new(alloc: Global, modem: S, clients: u8) -> Self
        ensures { result ≡ record { modem = modem; held = []; clients = clients; time = 0 } }
    {
        Stage {
            alloc,
            modem,
            held: VecDeque::new(alloc),
            clients,
            time: 0,
        }
    }

    /// How many clients there are.
    pub fn clients(&self) -> u8
        ensures { result ≡ self.now.clients }
    {
        self.clients
    }

    /// How many messages of the modem are held.
    pub fn held(&self) -> usize
        ensures { result ≡ length self.now.held }
    {
        self.held.len()
    }

    /// A client joins.
    pub fn join<B: Bench>(&mut self, bench: &mut B, conn: ConnId) -> Result<(), AllocError>
        requires ready { IsReady (B.is_held bench.old) (B.face bench.old) }
        requires new { (B.face bench.old).greatest < conn }
        ensures ready { OnOk result (IsReady (B.is_held bench.new) (B.face bench.new)) }
        ensures greatest { OnOk result ((B.face bench.new).greatest ≡ conn) }
        ensures clients { OnOk result (self.new.clients ≡ self.old.clients) }
        ensures time { OnOk result (self.new.time ≡ self.old.time) }
        ensures acts { OnOk result (Acts B.keeps B.runs S.keeps S.Framing.size (λ cast stage. join cast stage conn) self.old bench.old self.new bench.new) }
        ensures stops { OnErr result (Stops B.keeps B.runs S.keeps S.Framing.size (λ cast stage. join cast stage conn) self.old bench.old bench.new) }
    {
        self.meet(bench, Event::Joined(conn))
    }

    /// A client says something, of at most 16,384 bytes.
    pub fn say<B: Bench>(
        &mut self,
        bench: &mut B,
        conn: ConnId,
        message: &[u8],
    ) -> Result<(), AllocError>
        requires ready { IsReady (B.is_held bench.old) (B.face bench.old) }
        requires short { length message.now ≤ LONGEST_PIECE }
        ensures ready { OnOk result (StaysReady (B.is_held bench.new) (B.face bench.old) (B.face bench.new)) }
        ensures clients { OnOk result (self.new.clients ≡ self.old.clients) }
        ensures time { OnOk result (self.new.time ≡ self.old.time) }
        ensures acts { OnOk result (Acts B.keeps B.runs S.keeps S.Framing.size (λ cast stage. say cast conn stage message.now) self.old bench.old self.new bench.new) }
        ensures stops { OnErr result (Stops B.keeps B.runs S.keeps S.Framing.size (λ cast stage. say cast conn stage message.now) self.old bench.old bench.new) }
    {
        self.meet(bench, Event::Piece(conn, message))
    }

    /// The message that is held longest arrives, if there is one.
    pub fn longest_arrives<B: Bench>(&mut self, bench: &mut B) -> Result<(), AllocError>
        requires { IsReady (B.is_held bench.old) (B.face bench.old) }
        ensures ready { OnOk result (StaysReady (B.is_held bench.new) (B.face bench.old) (B.face bench.new)) }
        ensures clients { OnOk result (self.new.clients ≡ self.old.clients) }
        ensures time { OnOk result (self.new.time ≡ self.old.time) }
        ensures acts { OnOk result (Acts B.keeps B.runs S.keeps S.Framing.size rig.longest_arrives self.old bench.old self.new bench.new) }
        ensures stops { OnErr result (Stops B.keeps B.runs S.keeps S.Framing.size rig.longest_arrives self.old bench.old bench.new) }
    {
        match self.held.pop_front() {
            Some(message) => self.arrive(bench, message.as_slice()),
            None => Ok(()),
        }
    }

    /// The message that is held shortest arrives, if there is one.
    pub fn shortest_arrives<B: Bench>(&mut self, bench: &mut B) -> Result<(), AllocError>
        requires { IsReady (B.is_held bench.old) (B.face bench.old) }
        ensures ready { OnOk result (StaysReady (B.is_held bench.new) (B.face bench.old) (B.face bench.new)) }
        ensures clients { OnOk result (self.new.clients ≡ self.old.clients) }
        ensures time { OnOk result (self.new.time ≡ self.old.time) }
        ensures acts { OnOk result (Acts B.keeps B.runs S.keeps S.Framing.size rig.shortest_arrives self.old bench.old self.new bench.new) }
        ensures stops { OnErr result (Stops B.keeps B.runs S.keeps S.Framing.size rig.shortest_arrives self.old bench.old bench.new) }
    {
        match self.held.pop_back() {
            Some(message) => self.arrive(bench, message.as_slice()),
            None => Ok(()),
        }
    }

    /// All messages that are held arrive, the one that is held longest first.
    pub fn all_arrive<B: Bench>(&mut self, bench: &mut B) -> Result<(), AllocError>
        requires { IsReady (B.is_held bench.old) (B.face bench.old) }
        ensures ready { OnOk result (StaysReady (B.is_held bench.new) (B.face bench.old) (B.face bench.new)) }
        ensures clients { OnOk result (self.new.clients ≡ self.old.clients) }
        ensures time { OnOk result (self.new.time ≡ self.old.time) }
        ensures acts { OnOk result (Acts B.keeps B.runs S.keeps S.Framing.size rig.all_arrive self.old bench.old self.new bench.new) }
        ensures stops { OnErr result (Stops B.keeps B.runs S.keeps S.Framing.size rig.all_arrive self.old bench.old bench.new) }
    {
        let count = self.held.len();
        for _place in 0..count {
            self.longest_arrives(bench)?;
        }
        Ok(())
    }

    /// The time goes on by so many milliseconds.
    pub fn pass<B: Bench>(&mut self, bench: &mut B, time: u64) -> Result<(), AllocError>
        requires ready { IsReady (B.is_held bench.old) (B.face bench.old) }
        requires fits { self.old.time + time < 2 ^ 64 }
        ensures ready { OnOk result (StaysReady (B.is_held bench.new) (B.face bench.old) (B.face bench.new)) }
        ensures clients { OnOk result (self.new.clients ≡ self.old.clients) }
        ensures time { OnOk result (self.new.time ≡ self.old.time + time) }
        ensures acts { OnOk result (Acts B.keeps B.runs S.keeps S.Framing.size (λ cast stage. pass cast time stage) self.old bench.old self.new bench.new) }
        ensures stops { OnErr result (Stops B.keeps B.runs S.keeps S.Framing.size (λ cast stage. pass cast time stage) self.old bench.old bench.new) }
    {
        let now = self.time + time;
        self.meet(bench, Event::Now(now))
    }

    // A message of the modem arrives, in as few pieces as may come.
    fn arrive<B: Bench>(&mut self, bench: &mut B, message: &[u8]) -> Result<(), AllocError>
        requires { IsReady (B.is_held bench.old) (B.face bench.old) }
        ensures ready { OnOk result (StaysReady (B.is_held bench.new) (B.face bench.old) (B.face bench.new)) }
        ensures clients { OnOk result (self.new.clients ≡ self.old.clients) }
        ensures time { OnOk result (self.new.time ≡ self.old.time) }
        ensures acts { OnOk result (Acts B.keeps B.runs S.keeps S.Framing.size (λ cast stage. rig.arrive cast message.now stage) self.old bench.old self.new bench.new) }
        ensures stops { OnErr result (Stops B.keeps B.runs S.keeps S.Framing.size (λ cast stage. rig.arrive cast message.now stage) self.old bench.old bench.new) }
    {
        let mut rest = message;
        while rest.len() > LONGEST_PIECE {
            let (piece, more) = rest.split_at(LONGEST_PIECE);
            self.meet(bench, Event::ModemPiece(piece))?;
            rest = more;
        }
        self.meet(bench, Event::ModemPiece(rest))
    }

    // The proxy meets an event; then each client, in order of joining, and then the modem takes all
    // that waits for it.
    fn meet<B: Bench>(&mut self, bench: &mut B, event: Event<'_>) -> Result<(), AllocError>
        requires ready { IsReady (B.is_held bench.old) (B.face bench.old) }
        requires may { MayCome (event_of event) (B.face bench.old) }
        ensures ready { OnOk result (IsReady (B.is_held bench.new) (B.face bench.new)) }
        ensures greatest { OnOk result ((B.face bench.new).greatest ≡ greatest_after (event_of event.entry) (B.face bench.old).greatest) }
        ensures clients { OnOk result (self.new.clients ≡ self.old.clients) }
        ensures time { OnOk result (self.new.time ≡ time_then (event_of event.entry) self.old.time) }
        ensures acts { OnOk result (Acts B.keeps B.runs S.keeps S.Framing.size (λ cast stage. rig.meet cast (event_of event.entry) stage) self.old bench.old self.new bench.new) }
        ensures stops { OnErr result (Stops B.keeps B.runs S.keeps S.Framing.size (λ cast stage. rig.meet cast (event_of event.entry) stage) self.old bench.old bench.new) }
    {
        let clients = self.clients;
        self.time = time_after(event, self.time);
        meet(bench, event);
        clients_take(bench, clients);
        self.serve_modem(bench)
    }

    // The modem takes all that waits for it, and what it says to that is held.
    fn serve_modem<B: Bench>(&mut self, bench: &mut B) -> Result<(), AllocError>
        requires { IsReady (B.is_held bench.old) (B.face bench.old) }
        ensures ready { OnOk result (StaysReady (B.is_held bench.new) (B.face bench.old) (B.face bench.new)) }
        ensures clients { OnOk result (self.new.clients ≡ self.old.clients) }
        ensures time { OnOk result (self.new.time ≡ self.old.time) }
        ensures acts { OnOk result (Acts B.keeps B.runs S.keeps S.Framing.size rig.modem_served self.old bench.old self.new bench.new) }
        ensures stops { OnErr result (Stops B.keeps B.runs S.keeps S.Framing.size rig.modem_served self.old bench.old bench.new) }
    {
        let (first, second) = bench.modem_parts();
        let queue = joined(self.alloc, first, second)?;
        self.ask_all(queue.as_slice())?;
        modem_takes(bench);
        Ok(())
    }

    // The modem is asked each whole message of these bytes.
    fn ask_all(&mut self, bytes: &[u8]) -> Result<(), AllocError>
        ensures clients { OnOk result (self.new.clients ≡ self.old.clients) }
        ensures time { OnOk result (self.new.time ≡ self.old.time) }
        ensures asks { OnOk result (Asks S.keeps S.Framing.size (λ cast stage. rig.ask_all cast (cut cast.size bytes.now).messages stage) self.old self.new) }
    {
        let mut rest = bytes;
        while let Some(count) = first_message::<S::Framing>(rest) {
            let (message, more) = rest.split_at(count);
            self.ask(message)?;
            rest = more;
        }
        Ok(())
    }

    // The modem is asked a message, and what it says to that is held.
    fn ask(&mut self, message: &[u8]) -> Result<(), AllocError>
        requires { IsMessage S.Framing.size message.now }
        ensures clients { OnOk result (self.new.clients ≡ self.old.clients) }
        ensures time { OnOk result (self.new.time ≡ self.old.time) }
        ensures asks { OnOk result (Asks S.keeps S.Framing.size (λ cast stage. rig.ask cast message.now stage) self.old self.new) }
    {
        let answer = self.modem.ask(message)?;
        self.hold(answer.as_slice())?;
        Ok(())
    }

    // Each whole message of these bytes is held.
    fn hold(&mut self, bytes: &[u8]) -> Result<(), AllocError>
        ensures { OnOk result (self.new ≡ record self.old { held = self.old.held ++ (cut S.Framing.size bytes.now).messages }) }
    {
        let mut rest = bytes;
        while let Some(count) = first_message::<S::Framing>(rest) {
            let (message, more) = rest.split_at(count);
            let copy = Octets::from_slice(self.alloc, message)?;
            self.held.push_back(copy)?;
            rest = more;
        }
        Ok(())
    }
}

// The time that the clock shows once an event came.
fn time_after(event: Event<'_>, time: u64) -> u64
    ensures { result ≡ time_then (event_of event.entry) time }
{
    match event {
        Event::Now(now) => now.max(time),
        _ => time,
    }
}
