ghost use Rattle.std.specs.Prelude.{◌≡◌, ℕ, ◌<◌, ◌≤◌, [], Some, length, reverse, IfSome, IfOk};
ghost use Rattle.std.specs.Option.{option_copied, option_map};
ghost use Rattle.kit_io.specs.Record.{Notes};
ghost use Rattle.link_io.specs.Target.{address_of};
ghost use Rattle.hub_io.specs.Record.{Records, Opened};
ghost use Rattle.hub_io.specs.Clients.{fault_of, is_there, no_faults, nobody, TellsOf};
ghost use Rattle.hub_io.specs.Hub.{FitsBuffer, event_call};
ghost use Rattle.hub_io.specs.Notes.{size_of, call_as, calls_of};

use crate::clients::{ConnFaults, Names};
use crate::{Hub, HubEvent};
use kit_bytes::ConnId;
use kit_io::{CallCount, Failed, Faults, Log};
use link_io::Target;
use std::alloc::{AllocError, Global};

/// What a hub in memory answers to one `next`.
#[derive(Drop)]
pub enum HubTurn {
    /// It tells an event that brings no bytes.
    Tells(HubEvent),
    /// It gives bytes of a client, as many as fit.
    Gives(ConnId, Vec<u8>),
    /// It gives bytes of the modem, as many as fit.
    ModemGives(Vec<u8>),
    /// The call fails.
    Fails,
}

/// What a hub in memory answers to one opening, pairing, send or reopening.
#[derive(Clone, Copy, PartialEq, Eq)]
pub enum HubAnswer {
    /// The call does what it is to do; a send takes at most so many bytes.
    Takes(usize),
    /// The call fails.
    Fails,
}

/// A call that was made on a hub in memory. Its bytes stand beside it: the path, or what was given
/// or handed over.
#[derive(Clone, Copy, Debug, PartialEq, Eq)]
pub enum HubCall {
    Opened { ok: bool },
    /// No call of its own: the path of the socket of the device that the opening before it named.
    ToSocket,
    /// The same of a bridge.
    ToBridge,
    Paired { ok: bool },
    Told(HubEvent),
    NextFailed,
    Sent { conn: ConnId, taken: usize },
    SendFailed { conn: ConnId },
    SentModem { taken: usize },
    SendModemFailed,
    Reopened,
    ReopenFailed,
    HungUp { conn: ConnId },
}

/// A hub in memory. It follows two scripts, one of what `next` answers and one of what the openings,
/// pairings, sends and reopenings answer, in the order of the calls. Behind the end of the first it tells
/// `Stop`, and behind the end of the second each call does all that it is to do.
///
/// A `next` also fails where its turn can't be told: the name of who joins doesn't rise, a client that
/// isn't there tells something, or a piece has no bytes. Of clients whose names are 128 apart only
/// the one that joined last is there.
#[derive(Drop)]
pub struct MemHub {
    // What is still to come of each script, the next one last.
    turns: Vec<HubTurn>,
    answers: Vec<HubAnswer>,
    log: Log<HubCall>,
    faults: Faults,
    conn_faults: ConnFaults,
    modem_faults: Faults,
    names: Names,
    made: CallCount,
}

impl MemHub {
    /// A hub that follows these scripts, with room to tell of so many calls, and of so many bytes of
    /// theirs in all. An opening of a device takes the room of two.
    pub fn new(
        alloc: Global,
        mut turns: Vec<HubTurn>,
        mut answers: Vec<HubAnswer>,
        room: usize,
        bytes_room: usize,
    ) -> Result<Self, AllocError>
        ensures recorded { IfOk result (λ hub. hub.log.recorded ≡ Some []) }
        ensures room { IfOk result (λ hub. room ≤ hub.log.room) }
        ensures bytes_room { IfOk result (λ hub. bytes_room ≤ hub.log.bytes_room) }
        ensures turns { IfOk result (λ hub. hub.turns.items ≡ reverse turns.items) }
        ensures answers { IfOk result (λ hub. hub.answers.items ≡ reverse answers.items) }
        ensures faults { IfOk result (λ hub. hub.faults ≡ 0) }
        ensures conn_faults { IfOk result (λ hub. hub.conn_faults ≡ no_faults) }
        ensures modem_faults { IfOk result (λ hub. hub.modem_faults ≡ 0) }
        ensures nobody { IfOk result (λ hub. hub.names ≡ nobody) }
        ensures made { IfOk result (λ hub. hub.made ≡ 0) }
    {
        turns.reverse();
        answers.reverse();
        Ok(MemHub {
            turns,
            answers,
            log: Log::new(alloc, room, bytes_room)?,
            faults: Faults::none(),
            conn_faults: ConnFaults::none(alloc)?,
            modem_faults: Faults::none(),
            names: Names::none(alloc)?,
            made: CallCount::none(),
        })
    }

    /// The calls so far, the oldest first.
    pub fn log(&self) -> &Log<HubCall>
        ensures { result.now ≡ self.now.log }
    {
        &self.log
    }
}

// The answer that is next in the script.
fn next_answer(answers: &mut Vec<HubAnswer>) -> HubAnswer {
    answers.pop().unwrap_or(HubAnswer::Takes(usize::MAX))
}

// Puts bytes at the front of a buffer, as many as fit, where there are some.
fn give(bytes: &[u8], buf: &mut [u8]) -> Option<usize>
    ensures fits { IfSome result (λ count. (0 < count) × (count ≤ length buf.new)) }
    ensures len { length buf.new ≡ length buf.old }
{
    let count = bytes.len().min(buf.len());
    buf[..count].copy_from_slice(&bytes[..count]);
    (count > 0).then_some(count)
}

// What an event that brings no bytes tells, where it can be told.
fn told(event: HubEvent, names: &mut Names) -> Option<HubEvent>
    ensures fits { (room : ℕ) → IfSome result (λ event. FitsBuffer event room) }
    ensures names { TellsOf result names.old names.new }
{
    match event {
        HubEvent::Joined(conn) if names.is_new(conn) => names.join(conn),
        HubEvent::Left(conn) if names.has(conn) => names.leave(conn),
        HubEvent::Room(conn) if names.has(conn) => {}
        HubEvent::ModemGone | HubEvent::Now(_) | HubEvent::ModemRoom | HubEvent::Stop => {}
        _ => return None,
    }
    Some(event)
}

// Takes a turn, where it can be taken.
fn take_turn(turn: HubTurn, names: &mut Names, buf: &mut [u8]) -> Option<HubEvent>
    ensures fits { IfSome result (λ event. FitsBuffer event (length buf.new)) }
    ensures len { length buf.new ≡ length buf.old }
    ensures names { TellsOf result names.old names.new }
{
    match turn {
        HubTurn::Tells(event) => told(event, names),
        HubTurn::Gives(conn, bytes) => {
            if !names.has(conn) {
                return None;
            }
            let count = give(&bytes, buf)?;
            Some(HubEvent::Piece(conn, count))
        }
        HubTurn::ModemGives(bytes) => {
            let count = give(&bytes, buf)?;
            Some(HubEvent::ModemPiece(count))
        }
        HubTurn::Fails => None,
    }
}

// How many bytes an event brings.
fn size(event: HubEvent) -> usize
    ensures { result ≡ size_of event }
{
    match event {
        HubEvent::Piece(_, size) | HubEvent::ModemPiece(size) => size,
        _ => 0,
    }
}

// Notes a call.
fn note(log: &mut Log<HubCall>, call: HubCall, bytes: &[u8])
    ensures notes { Notes log.old (record { kind = call; bytes = bytes.now }) log.new }
    ensures calls { IfSome (call_as call bytes.now) (λ made. Records (calls_of log.old.recorded) made (calls_of log.new.recorded)) }
{
    log.note(call, bytes);
}

// Notes an event, whose bytes stand at the buffer's front.
fn note_event(log: &mut Log<HubCall>, event: HubEvent, buf: &[u8])
    requires { FitsBuffer event (length buf.now) }
    ensures { Records (calls_of log.old.recorded) (event_call event buf.now) (calls_of log.new.recorded) }
{
    note(log, HubCall::Told(event), &buf[..size(event)]);
}

// Notes an opening, and the device that it named.
fn note_opening(log: &mut Log<HubCall>, socket: &str, device: Option<&Target>, ok: bool)
    ensures { Records (calls_of log.old.recorded) (Opened socket.now (option_map address_of (option_copied device.entry)) ok) (calls_of log.new.recorded) }
{
    note(log, HubCall::Opened { ok }, socket.as_bytes());
    match device {
        Some(Target::Socket(path)) => note(log, HubCall::ToSocket, path.as_str().as_bytes()),
        Some(Target::Bridge(path)) => note(log, HubCall::ToBridge, path.as_str().as_bytes()),
        None => {}
    }
}

impl Hub for MemHub {
    ghost calls = { λ s. calls_of s.log.recorded };

    ghost faults = { λ s. s.faults };

    ghost conn_faults = { λ s conn. fault_of s.conn_faults conn };

    ghost modem_faults = { λ s. s.modem_faults };

    ghost greatest = { λ s. s.names.greatest };

    ghost is_connected = { λ s conn. is_there s.names conn };

    ghost made = { λ s. s.made };

    fn made(&self) -> u64 {
        self.made.value()
    }

    fn open(&mut self, socket: &str, device: Option<&Target>) -> Result<(), Failed> {
        self.made.add();
        match next_answer(&mut self.answers) {
            HubAnswer::Takes(_) => {
                note_opening(&mut self.log, socket, device, true);
                Ok(())
            }
            HubAnswer::Fails => {
                note_opening(&mut self.log, socket, device, false);
                Err(self.faults.fail())
            }
        }
    }

    fn pair(&mut self) -> Result<(), Failed> {
        self.made.add();
        match next_answer(&mut self.answers) {
            HubAnswer::Takes(_) => {
                note(&mut self.log, HubCall::Paired { ok: true }, &[]);
                Ok(())
            }
            HubAnswer::Fails => {
                note(&mut self.log, HubCall::Paired { ok: false }, &[]);
                Err(self.faults.fail())
            }
        }
    }

    fn next(&mut self, buf: &mut [u8]) -> Result<HubEvent, Failed> {
        self.made.add();
        let turn = self.turns.pop().unwrap_or(HubTurn::Tells(HubEvent::Stop));
        match take_turn(turn, &mut self.names, buf) {
            Some(event) => {
                note_event(&mut self.log, event, buf);
                Ok(event)
            }
            None => {
                note(&mut self.log, HubCall::NextFailed, &[]);
                Err(self.faults.fail())
            }
        }
    }

    fn send(&mut self, conn: ConnId, bytes: &[u8]) -> Result<usize, Failed> {
        self.made.add();
        match next_answer(&mut self.answers) {
            HubAnswer::Takes(most) => {
                let taken = bytes.len().min(most);
                note(&mut self.log, HubCall::Sent { conn, taken }, bytes);
                Ok(taken)
            }
            HubAnswer::Fails => {
                note(&mut self.log, HubCall::SendFailed { conn }, bytes);
                Err(self.conn_faults.fail(conn))
            }
        }
    }

    fn send_modem(&mut self, bytes: &[u8]) -> Result<usize, Failed> {
        self.made.add();
        match next_answer(&mut self.answers) {
            HubAnswer::Takes(most) => {
                let taken = bytes.len().min(most);
                note(&mut self.log, HubCall::SentModem { taken }, bytes);
                Ok(taken)
            }
            HubAnswer::Fails => {
                note(&mut self.log, HubCall::SendModemFailed, bytes);
                Err(self.modem_faults.fail())
            }
        }
    }

    fn reopen_modem(&mut self) -> Result<(), Failed> {
        self.made.add();
        match next_answer(&mut self.answers) {
            HubAnswer::Takes(_) => {
                note(&mut self.log, HubCall::Reopened, &[]);
                Ok(())
            }
            HubAnswer::Fails => {
                note(&mut self.log, HubCall::ReopenFailed, &[]);
                Err(self.modem_faults.fail())
            }
        }
    }

    fn hang_up(&mut self, conn: ConnId) {
        self.made.add();
        self.names.leave(conn);
        note(&mut self.log, HubCall::HungUp { conn }, &[]);
    }
}
