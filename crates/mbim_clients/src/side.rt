ghost use Rattle.std.specs.Prelude.{◌≡◌, ◌++◌, ◌≤◌, false, [], max, length, option_map, IfOk};
ghost use Rattle.number_space.specs.declared.space.Row.{Row};
ghost use Rattle.number_space.specs.Table.{row_of, first_due, answers, expires};
ghost use Rattle.mbim_fragments.specs.Assembling.{fresh, joining_behind, assembled_after, body_given};
ghost use Rattle.mbim_fragments.specs.Runs.{longest_body};
ghost use Rattle.mbim_services.specs.SubscribeLists.{is_same_list};
ghost use Rattle.mbim_proxy.specs.Setup.{mbim_setup};
ghost use Rattle.mbim_state.specs.declared.asked.Asked.{Asked as TableAsked};
ghost use Rattle.mbim_state.specs.Core.{side_of, setup_of};
ghost use Rattle.mbim_state.specs.Transitions as transitions;
ghost use Rattle.mbim_clients.specs.Side.{is_whole};
ghost use Rattle.outbox.specs.Fronts.{IsFrontOf};

use crate::askers::Askers;
use crate::client::Client;
use crate::device::Device;
use crate::modem::Modem;
use crate::sending::send_list;
use crate::traffic::Traffic;
use crate::writer::Writer;
use connections::Connections;
use kit_bytes::{ConnId, Text};
use mbim_fragments::{Assembly, Body, Took};
use mbim_frame::Mbim;
use mbim_frame::status::SUCCESS;
use mbim_state::Asked;
use std::alloc::{AllocError, Global};
use std::marker::Model;
use subscriptions::{ClientList, Pair, PairList};

/// What a core keeps beside the clients' connections.
#[derive(Drop)]
pub struct ModemSide {
    pub(crate) device: Device,
    pub(crate) time_limit: u64,
    pub(crate) time: u64,
    away: bool,
    pub(crate) modem: Modem,
    pub(crate) traffic: Traffic,
    pub(crate) askers: Askers,
    last_list: PairList,
    answer: Assembly,
    indication: Assembly,
    // ---- room for what is read or written ----
    // a whole command
    pub(crate) body: Body,
    pub(crate) list: PairList,
    pub(crate) writer: Writer,
}

impl Model for ModemSide {
    ghost use Rattle.mbim_state.specs.Core as core;

    ghost Value = { core.ModemSide };

    ghost use Rattle.mbim_clients.specs.Side.{state_of};

    ghost view = { λ s. record {
      device = s.device;
      time_limit = s.time_limit;
      time = s.time;
      away = s.away;
      modem = state_of s.modem;
      numbers = s.traffic.numbers;
      askers = s.askers;
      last_list = s.last_list;
      begun = record { answer = s.answer; indication = s.indication };
      outbox = s.traffic.outbox;
    } };
}

impl ModemSide {
    /// Nothing happened yet. It has the room that it will ever need.
    pub fn open(alloc: Global, device: Text, time_limit: u64) -> Result<Self, AllocError>
        ensures { IfOk result (λ side. side ≡ side_of (mbim_setup device time_limit false) [] []) }
    {
        let device = Device::open(alloc, device)?;
        let last_list = PairList::open(alloc)?;
        let (answer, indication) = open_assemblies(alloc)?;
        let (body, list, writer) = open_room(alloc)?;
        let traffic = Traffic::open(alloc)?;
        Ok(ModemSide {
            device,
            time_limit,
            time: 0,
            away: false,
            modem: Modem::Shut,
            traffic,
            askers: Askers::none(),
            last_list,
            answer,
            indication,
            body,
            list,
            writer,
        })
    }

    /// What the clock shows.
    pub fn time(&self) -> u64
        ensures { result ≡ self.now.time }
    {
        self.time
    }

    /// Whether the modem is away.
    pub fn away(&self) -> bool
        ensures { result ≡ self.now.away }
    {
        self.away
    }

    /// The first of the bytes that wait for the modem; none only where none wait.
    pub fn queued(&self) -> &[u8]
        ensures { IsFrontOf result.now self.now.outbox.bytes }
    {
        self.traffic.queued()
    }

    /// All the bytes that wait for the modem, in two parts.
    pub fn parts(&self) -> (&[u8], &[u8])
        ensures { result.0.now ++ result.1.now ≡ self.now.outbox.bytes }
    {
        self.traffic.parts()
    }

    /// The modem took the first so many of the bytes that wait for it.
    pub fn take(&mut self, count: usize)
        requires { count ≤ length self.old.outbox.bytes }
        ensures { self.new ≡ transitions.take_modem count self.old }
    {
        self.traffic.take(count);
    }

    /// The clock shows a time. It never goes back.
    pub fn show_time(&mut self, time: u64)
        ensures { self.new ≡ record self.old { time = max time self.old.time } }
    {
        self.time = time.max(self.time);
    }

    /// The sender, what is kept of its request, and whether it still waits, of a number in use.
    pub fn look(&self, number: u32) -> Option<(u64, Asked, bool)>
        ensures { result ≡ option_map (λ (row : Row TableAsked). (row.conn, row.note, row.pending)) (row_of number self.now.numbers.rows) }
    {
        self.traffic.look(number)
    }

    /// The number was answered, and is free again.
    pub fn free(&mut self, number: u32)
        ensures { self.new ≡ record self.old { numbers = answers number self.old.numbers } }
    {
        self.traffic.free(number);
    }

    /// Takes the first request whose deadline came: its number stays in use, and nobody waits for it
    /// any more.
    pub fn expire(&mut self, time: u64) -> Option<(u64, Asked)>
        ensures due { result ≡ option_map (λ (row : Row TableAsked). (row.conn, row.note)) (first_due time self.old.numbers.rows) }
        ensures side { self.new ≡ record self.old { numbers = expires time self.old.numbers } }
    {
        self.traffic.expire(time)
    }

    /// The connection of this name is gone: it waits for nothing.
    pub fn give_up(&mut self, name: ConnId)
        ensures { self.new ≡ transitions.give_up name self.old }
    {
        self.traffic.give_up(name);
        self.askers.remove(name);
    }

    /// The clients whose requests to open the modem wait, in the order in which they asked.
    pub fn waiting(&self, connections: &Connections<Mbim, Client>) -> Askers
        ensures { result ≡ transitions.waiting_of connections.now.present self.now.askers }
    {
        self.askers.waiting(connections)
    }

    /// The modem opened, or didn't.
    pub fn end_opening(&mut self, status: u32)
        ensures { self.new ≡ transitions.opening_ended status self.old }
    {
        if status == SUCCESS {
            self.modem = Modem::Ready;
            self.last_list.copy(&ClientList::new());
        } else {
            self.modem = Modem::Shut;
        }
    }

    /// The modem is lost: nothing waits for it, and it knows of no number.
    pub fn lose(&mut self)
        ensures { self.new ≡ transitions.lost self.old }
    {
        self.away = true;
        self.modem = Modem::Away;
        self.answer.restart();
        self.indication.restart();
        self.traffic.clear();
    }

    /// The modem is back, and not open.
    pub fn regain(&mut self)
        ensures { self.new ≡ transitions.regain self.old }
    {
        self.away = false;
        self.modem = Modem::Shut;
    }

    /// Hears a fragment of an answer of the modem, and says whether it completes a body, which it gives.
    pub fn join_answer(&mut self, fragment: &[u8], whole: &mut Body) -> bool
        requires { 20 ≤ length fragment.now }
        ensures side { self.new ≡ record self.old { begun = record self.old.begun { answer = assembled_after longest_body self.old.begun.answer fragment.now } } }
        ensures whole { result ≡ is_whole (joining_behind longest_body self.old.begun.answer fragment.now) }
        ensures body { whole.new ≡ body_given (joining_behind longest_body self.old.begun.answer fragment.now) whole.old }
    {
        matches!(self.answer.take(fragment, whole), Took::Message)
    }

    /// Hears a fragment of an indication, and says whether it completes a body, which it gives.
    pub fn join_indication(&mut self, fragment: &[u8], whole: &mut Body) -> bool
        requires { 20 ≤ length fragment.now }
        ensures side { self.new ≡ record self.old { begun = record self.old.begun { indication = assembled_after longest_body self.old.begun.indication fragment.now } } }
        ensures whole { result ≡ is_whole (joining_behind longest_body self.old.begun.indication fragment.now) }
        ensures body { whole.new ≡ body_given (joining_behind longest_body self.old.begun.indication fragment.now) whole.old }
    {
        matches!(self.indication.take(fragment, whole), Took::Message)
    }

    /// Whether the modem is open, and no request of the proxy itself waits.
    pub fn is_free(&self) -> bool
        ensures { result ≡ transitions.is_free self.now }
    {
        self.modem.is_ready() && !self.traffic.is_awaited(0)
    }

    /// Asks the modem for a list of subscriptions, unless it was last asked for that one, isn't free, or no
    /// number or no room is there. Says whether it was last asked for that one now.
    pub fn send_list(&mut self, list: &PairList) -> bool
        ensures side { self.new ≡ transitions.send_list (setup_of self.old) list.now self.old }
        ensures asked { result ≡ is_same_list list.now self.new.last_list }
    {
        if is_same(list.pairs(), self.last_list.pairs()) {
            return true;
        }
        if !self.is_free() {
            return false;
        }
        let deadline = self.time.saturating_add(self.time_limit);
        if send_list(&mut self.traffic, &mut self.writer, list, deadline).is_none() {
            return false;
        }
        self.last_list.set(list);
        true
    }
}

// One for answers, and one for indications.
fn open_assemblies(alloc: Global) -> Result<(Assembly, Assembly), AllocError>
    ensures { IfOk result (λ begun. begun ≡ (fresh, fresh)) }
{
    Ok((Assembly::open(alloc)?, Assembly::open(alloc)?))
}

// Room for what is read or written.
fn open_room(alloc: Global) -> Result<(Body, PairList, Writer), AllocError>
    ensures { IfOk result (λ room. room ≡ ([], [], [])) }
{
    Ok((
        Body::open(alloc)?,
        PairList::open(alloc)?,
        Writer::open(alloc)?,
    ))
}

/// Whether the lists of subscriptions are the same.
pub fn is_same(list: &[Pair], other: &[Pair]) -> bool
    ensures { result ≡ is_same_list list.now other.now }
{
    list.cmp(other).is_eq()
}
