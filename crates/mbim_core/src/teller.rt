ghost use Rattle.std.specs.Prelude.{◌≡◌, ◌+◌, ◌<◌, ◌≤◌, ◌==◌, ◌++◌, ℕ, List, [], true, false, length, map, position, Some, IfOk};
ghost use Rattle.connections.specs.Table.{Connection, Table, IsRegular, connection_in, finds_room};
ghost use Rattle.mbim_frame.specs.declared.kind.MessageKind.TheVariants.{CommandDone, OpenDone, FunctionError, IndicateStatus};
ghost use Rattle.mbim_frame.specs.Bodies.{is_done, is_indication};
ghost use Rattle.mbim_frame.specs.Frame.{size_of};
ghost use Rattle.mbim_frame.specs.Head.{kind_of};
ghost use Rattle.mbim_frame.specs.Kinds.{kind_number};
ghost use Rattle.mbim_frame.specs.Writing.{unsplit};
ghost use Rattle.mbim_proxy.specs.Setup.{Setup};
ghost use Rattle.mbim_proxy.specs.FromModem.{heard_if, IsDone, IsIndication};
ghost use Rattle.proxy_state.specs.Chosen.{StandsAt};
ghost use Rattle.proxy_state.specs.Step as proxy;
ghost use Rattle.proxy_state.specs.Telling.{tell};
ghost use Rattle.mbim_state.specs.Core.{Client as TableClient, setup_of};
ghost use Rattle.mbim_state.specs.Transitions.{give_up, mbim_handlers, tell_answer, tell_refusal, ends_opening, hear_as, hear_modem, refuse_as, expire, shut_all, lose, tick, finish};
ghost use Rattle.mbim_core.specs.Answer.{heard_of};
ghost use Rattle.mbim_core.specs.Hand.{hand_of, nobody_at_hand, joined, left, left_unless, subscriber_at, Follows, IsOf};
ghost use Rattle.mbim_core.specs.State.{state_of, tells_opened, is_receiver, indicated_from, Settles, IsDoneWith, IsIndicationWith};

use crate::answer::Answer;
use connections::Connections;
use framing::LONGEST_PIECE;
use kit_bytes::{ConnId, u32_at};
use mbim_clients::{Client, ModemSide, Writer};
use mbim_fragments::{Body, LONGEST_BODY, unsplit_head};
use mbim_frame::{
    DoneHead, IndicationHead, MHead, Mbim, MessageKind, open_done, set_number, status,
};
use mbim_state::{Asked, CommandName};
use std::alloc::{AllocError, Global};
use subscriptions::{CLIENT_LIMIT, Subscriptions};

/// Tells the clients what comes of the modem, and asks it for the merge of their lists.
#[derive(Drop)]
pub struct Teller {
    // writes what a client is to get of the modem
    writer: Writer,
    // what each client subscribes to, and all that the open ones subscribe to together
    subscriptions: Subscriptions,
    // the modem was last asked for that
    asked: bool,
}

impl Teller {
    /// Nobody is there, and the modem wasn't asked for a list.
    pub fn open(alloc: Global) -> Result<Self, AllocError>
        ensures { IfOk result (λ teller. hand_of teller ≡ nobody_at_hand) }
    {
        Ok(Teller {
            writer: Writer::open(alloc)?,
            subscriptions: Subscriptions::open(alloc)?,
            asked: false,
        })
    }

    /// A client joined.
    pub fn join(&mut self, name: ConnId)
        requires { length self.old.subscriptions < CLIENT_LIMIT }
        ensures { hand_of self.new ≡ joined name (hand_of self.old) }
    {
        self.subscriptions.joined(name);
    }

    /// A client is gone.
    pub fn leave(&mut self, name: ConnId)
        ensures { hand_of self.new ≡ left name (hand_of self.old) }
    {
        self.subscriptions.leave(name);
        self.asked = false;
    }

    // The client of this place subscribes from now on to what it is heard to, and is open or not.
    fn follow(&mut self, connections: &Connections<Mbim, Client>, place: usize)
        requires { place < length connections.now.present }
        ensures follows { (k : Connection TableClient) → StandsAt k connections.now.present place → Follows k (hand_of self.old) (hand_of self.new) }
        ensures regular { IsRegular connections.now }
    {
        let name = connections.name_at(place);
        let client = connections.client_at(place);
        let is_new = self
            .subscriptions
            .update(name, client.opened(), client.list());
        self.asked &= !is_new;
    }

    // A client that was dropped is gone.
    fn leave_unless(&mut self, stays: bool, name: ConnId)
        ensures { hand_of self.new ≡ left_unless stays name (hand_of self.old) }
    {
        if !stays {
            self.leave(name);
        }
    }

    /// A piece of a client's stream.
    pub fn bring(
        &mut self,
        connections: &mut Connections<Mbim, Client>,
        side: &mut ModemSide,
        name: ConnId,
        piece: &[u8],
    )
        requires agrees { IsOf connections.old side.old (hand_of self.old) }
        requires short { length piece.now ≤ LONGEST_PIECE }
        ensures told { state_of connections.new side.new ≡ proxy.bring (mbim_handlers (setup_of side.old)) size_of name piece.now (state_of connections.old side.old) }
        ensures agrees { IsOf connections.new side.new (hand_of self.new) }
    {
        if !connections.bring(name, piece, side) {
            self.leave(name);
            side.give_up(name);
            return;
        }
        if let Some(place) = connections.find(name) {
            self.follow(connections, place);
        }
    }

    /// The clock shows this time.
    pub fn tick(
        &mut self,
        connections: &mut Connections<Mbim, Client>,
        side: &mut ModemSide,
        time: u64,
    )
        requires { IsOf connections.old side.old (hand_of self.old) }
        ensures told { state_of connections.new side.new ≡ tick (setup_of side.old) time (state_of connections.old side.old) }
        ensures agrees { IsOf connections.new side.new (hand_of self.new) }
    {
        side.show_time(time);
        let now = side.time();
        self.expire(connections, side, now);
    }

    // The requests whose time has come are refused.
    fn expire(
        &mut self,
        connections: &mut Connections<Mbim, Client>,
        side: &mut ModemSide,
        time: u64,
    )
        requires { IsOf connections.old side.old (hand_of self.old) }
        ensures told { state_of connections.new side.new ≡ expire (setup_of side.old) time (state_of connections.old side.old) }
        ensures agrees { IsOf connections.new side.new (hand_of self.new) }
    {
        while let Some((name, asked)) = side.expire(time) {
            self.refuse(connections, side, name, &asked);
        }
    }

    // No answer comes to what was asked.
    fn refuse(
        &mut self,
        connections: &mut Connections<Mbim, Client>,
        side: &mut ModemSide,
        name: ConnId,
        asked: &Asked,
    )
        requires { IsOf connections.old side.old (hand_of self.old) }
        ensures told { state_of connections.new side.new ≡ refuse_as (setup_of side.old) asked.now name (state_of connections.old side.old) }
        ensures agrees { IsOf connections.new side.new (hand_of self.new) }
    {
        match asked {
            Asked::Open => self.end_opening(connections, side, status::FAILURE),
            Asked::Command(command) => self.tell_refusal(connections, side, name, command),
        }
    }

    /// The modem is lost, and away from here on: what waits is refused, and no client is open any more.
    pub fn lose(&mut self, connections: &mut Connections<Mbim, Client>, side: &mut ModemSide)
        requires { IsOf connections.old side.old (hand_of self.old) }
        ensures told { state_of connections.new side.new ≡ lose (setup_of side.old) (state_of connections.old side.old) }
        ensures agrees { IsOf connections.new side.new (hand_of self.new) }
    {
        self.expire(connections, side, u64::MAX);
        self.shut_all(connections);
        side.lose();
    }

    /// A whole message of the modem's stream. Where messages come in fragments, `whole` gets the body that
    /// the last of them completes.
    pub fn hear_modem(
        &mut self,
        connections: &mut Connections<Mbim, Client>,
        side: &mut ModemSide,
        message: &[u8],
        whole: &mut Body,
    )
        requires agrees { IsOf connections.old side.old (hand_of self.old) }
        requires least { 12 ≤ length message.now }
        ensures told { state_of connections.new side.new ≡ hear_modem (setup_of side.old) message.now (state_of connections.old side.old) }
        ensures agrees { IsOf connections.new side.new (hand_of self.new) }
    {
        let Some(kind) = MHead::read(message).message_kind() else {
            return;
        };
        match kind {
            MessageKind::CommandDone => self.hear_done(connections, side, message, whole),
            MessageKind::OpenDone => self.hear_open_done(connections, side, message),
            MessageKind::FunctionError => self.hear_error(connections, side, message),
            MessageKind::IndicateStatus => self.hear_indication(connections, side, message, whole),
            _ => {}
        }
    }

    // A fragment of an answer to a command.
    fn hear_done(
        &mut self,
        connections: &mut Connections<Mbim, Client>,
        side: &mut ModemSide,
        message: &[u8],
        whole: &mut Body,
    )
        requires agrees { IsOf connections.old side.old (hand_of self.old) }
        requires least { 12 ≤ length message.now }
        requires kind { kind_of message.now ≡ kind_number CommandDone }
        ensures told { state_of connections.new side.new ≡ hear_modem (setup_of side.old) message.now (state_of connections.old side.old) }
        ensures agrees { IsOf connections.new side.new (hand_of self.new) }
    {
        if message.len() < 20 {
            return;
        }
        if side.join_answer(message, whole) {
            self.respond_done(
                connections,
                side,
                MHead::read(message).number,
                whole.as_slice(),
            );
        }
    }

    // The answer with this body to the command of this number.
    fn respond_done(
        &mut self,
        connections: &mut Connections<Mbim, Client>,
        side: &mut ModemSide,
        number: u32,
        body: &[u8],
    )
        requires agrees { IsOf connections.old side.old (hand_of self.old) }
        requires short { length body.now ≤ LONGEST_BODY }
        ensures told { state_of connections.new side.new ≡ hear_as (setup_of side.old) (heard_if (is_done body.now) IsDone) (unsplit (kind_number CommandDone) number body.now) (state_of connections.old side.old) }
        ensures agrees { IsOf connections.new side.new (hand_of self.new) }
    {
        if DoneHead::read(body).is_none() {
            return;
        }
        match settle(side, Answer::Done, number) {
            Some((_, Asked::Open)) => {}
            Some((name, Asked::Command(command))) => self.tell_done(
                connections,
                side,
                name,
                &command,
                body,
            ),
            None => {}
        }
    }

    // An answer to a request to open.
    fn hear_open_done(
        &mut self,
        connections: &mut Connections<Mbim, Client>,
        side: &mut ModemSide,
        message: &[u8],
    )
        requires agrees { IsOf connections.old side.old (hand_of self.old) }
        requires least { 12 ≤ length message.now }
        requires kind { kind_of message.now ≡ kind_number OpenDone }
        ensures told { state_of connections.new side.new ≡ hear_modem (setup_of side.old) message.now (state_of connections.old side.old) }
        ensures agrees { IsOf connections.new side.new (hand_of self.new) }
    {
        if message.len() != 16 {
            return;
        }
        let settled = settle(side, Answer::OpenDone, MHead::read(message).number);
        if settled.is_some() {
            self.end_opening(connections, side, u32_at(message, 12));
        }
    }

    // An error in place of an answer.
    fn hear_error(
        &mut self,
        connections: &mut Connections<Mbim, Client>,
        side: &mut ModemSide,
        message: &[u8],
    )
        requires agrees { IsOf connections.old side.old (hand_of self.old) }
        requires least { 12 ≤ length message.now }
        requires kind { kind_of message.now ≡ kind_number FunctionError }
        ensures told { state_of connections.new side.new ≡ hear_modem (setup_of side.old) message.now (state_of connections.old side.old) }
        ensures agrees { IsOf connections.new side.new (hand_of self.new) }
    {
        if message.len() != 16 {
            return;
        }
        match settle(side, Answer::Error, MHead::read(message).number) {
            Some((_, Asked::Open)) => self.end_opening(connections, side, status::FAILURE),
            Some((name, Asked::Command(command))) => self.tell_error(
                connections,
                side,
                name,
                &command,
                message,
            ),
            None => {}
        }
    }

    // A client gets the answer with this body to its command, under its own number and in fragments
    // that it takes.
    fn tell_done(
        &mut self,
        connections: &mut Connections<Mbim, Client>,
        side: &mut ModemSide,
        name: ConnId,
        command: &CommandName,
        body: &[u8],
    )
        requires agrees { IsOf connections.old side.old (hand_of self.old) }
        requires short { length body.now ≤ LONGEST_BODY }
        ensures told { (m : List ℕ) → IsDoneWith body.now m → state_of connections.new side.new ≡ tell_answer command.now m name (state_of connections.old side.old) }
        ensures agrees { IsOf connections.new side.new (hand_of self.new) }
    {
        let Some(place) = connections.find(name) else {
            return;
        };
        let max = connections.client_at(place).fragment();
        let kind = MessageKind::CommandDone.number();
        let Some(head) = unsplit_head(kind, command.number, max, body) else {
            self.writer.split(kind, command.number, max, body);
            let stays = put(connections, side, name, self.writer.text());
            return self.leave_unless(stays, name);
        };
        let stays = put_at(connections, side, place, name, &head, body);
        self.leave_unless(stays, name);
    }

    // A client gets the error in place of the answer to its command, under its own number.
    fn tell_error(
        &mut self,
        connections: &mut Connections<Mbim, Client>,
        side: &mut ModemSide,
        name: ConnId,
        command: &CommandName,
        message: &[u8],
    )
        requires agrees { IsOf connections.old side.old (hand_of self.old) }
        requires long { length message.now ≡ 16 }
        requires kind { kind_of message.now ≡ kind_number FunctionError }
        ensures told { state_of connections.new side.new ≡ tell_answer command.now message.now name (state_of connections.old side.old) }
        ensures agrees { IsOf connections.new side.new (hand_of self.new) }
    {
        let mut error = [0; 16];
        error.copy_from_slice(message);
        set_number(&mut error, command.number);
        let stays = put(connections, side, name, &error);
        self.leave_unless(stays, name);
    }

    // A client is told that no answer to its command comes.
    fn tell_refusal(
        &mut self,
        connections: &mut Connections<Mbim, Client>,
        side: &mut ModemSide,
        name: ConnId,
        command: &CommandName,
    )
        requires { IsOf connections.old side.old (hand_of self.old) }
        ensures told { state_of connections.new side.new ≡ tell_refusal command.now name (state_of connections.old side.old) }
        ensures agrees { IsOf connections.new side.new (hand_of self.new) }
    {
        let Some(place) = connections.find(name) else {
            return;
        };
        let max = connections.client_at(place).fragment();
        let done = DoneHead {
            uuid: command.uuid,
            cid: command.cid,
            status: status::FAILURE,
        };
        self.writer.done(command.number, max, &done);
        let text = self.writer.text();
        let stays = put(connections, side, name, text);
        self.leave_unless(stays, name);
    }

    // The proxy's own request to open the modem ends with this status, which each client that waits
    // for it is told, in the order in which they asked.
    fn end_opening(
        &mut self,
        connections: &mut Connections<Mbim, Client>,
        side: &mut ModemSide,
        status: u32,
    )
        requires { IsOf connections.old side.old (hand_of self.old) }
        ensures told { state_of connections.new side.new ≡ ends_opening (setup_of side.old) status (state_of connections.old side.old) }
        ensures agrees { IsOf connections.new side.new (hand_of self.new) }
    {
        self.asked = false;
        let mut waiting = side.waiting(connections);
        side.end_opening(status);
        while let Some(name) = waiting.take_first() {
            self.tell_opened(connections, side, name, status);
        }
    }

    // The client of this name is told of the end of the opening.
    fn tell_opened(
        &mut self,
        connections: &mut Connections<Mbim, Client>,
        side: &mut ModemSide,
        name: ConnId,
        status: u32,
    )
        requires { IsOf connections.old side.old (hand_of self.old) }
        ensures told { (s : Setup) → state_of connections.new side.new ≡ tells_opened s status name (state_of connections.old side.old) }
        ensures agrees { IsOf connections.new side.new (hand_of self.new) }
    {
        let Some(place) = connections.find(name) else {
            return;
        };
        let number = connections.client_at(place).opening_number();
        let done = open_done(number, status);
        if !put(connections, side, name, &done) {
            self.leave(name);
            return;
        }
        let client = connections.client_mut(place);
        client.end_opening(status);
        self.follow(connections, place);
    }

    // A fragment of an indication.
    fn hear_indication(
        &mut self,
        connections: &mut Connections<Mbim, Client>,
        side: &mut ModemSide,
        message: &[u8],
        whole: &mut Body,
    )
        requires agrees { IsOf connections.old side.old (hand_of self.old) }
        requires least { 12 ≤ length message.now }
        requires kind { kind_of message.now ≡ kind_number IndicateStatus }
        ensures told { state_of connections.new side.new ≡ hear_modem (setup_of side.old) message.now (state_of connections.old side.old) }
        ensures agrees { IsOf connections.new side.new (hand_of self.new) }
    {
        if message.len() < 20 {
            return;
        }
        if side.join_indication(message, whole) {
            self.indicate(connections, side, whole.as_slice());
        }
    }

    // Each client that is open and wants the indication with this body gets it.
    fn indicate(
        &mut self,
        connections: &mut Connections<Mbim, Client>,
        side: &mut ModemSide,
        body: &[u8],
    )
        requires agrees { IsOf connections.old side.old (hand_of self.old) }
        requires short { length body.now ≤ LONGEST_BODY }
        ensures told { (m : List ℕ) → IsIndicationWith body.now m → state_of connections.new side.new ≡ hear_as (setup_of side.old) (heard_if (is_indication body.now) IsIndication) m (state_of connections.old side.old) }
        ensures agrees { IsOf connections.new side.new (hand_of self.new) }
    {
        let Some(head) = IndicationHead::read(body) else {
            return;
        };
        let mut index = 0;
        while index < connections.present() {
            index = self.indicate_at(connections, side, index, &head, body);
        }
    }

    // The client of this place gets the indication where it is for it. Gives the place of the next one.
    fn indicate_at(
        &mut self,
        connections: &mut Connections<Mbim, Client>,
        side: &mut ModemSide,
        index: usize,
        head: &IndicationHead,
        body: &[u8],
    ) -> usize
        requires agrees { IsOf connections.old side.old (hand_of self.old) }
        requires here { index < length connections.old.present }
        requires short { length body.now ≤ LONGEST_BODY }
        ensures told { indicated_from head.now body.now result (state_of connections.new side.new) ≡ indicated_from head.now body.now index (state_of connections.old side.old) }
        ensures fewer { length connections.new.present + index < length connections.old.present + result }
        ensures agrees { IsOf connections.new side.new (hand_of self.new) }
    {
        let name = connections.name_at(index);
        let client = connections.client_at(index);
        if !is_receiver(client, head) {
            return index + 1;
        }
        let max = client.fragment();
        let kind = MessageKind::IndicateStatus.number();
        self.writer.split(kind, 0, max, body);
        let text = self.writer.text();
        if put(connections, side, name, text) {
            return index + 1;
        }
        self.leave(name);
        index
    }

    /// The end of each event: the modem is asked for the list of all open clients together, where it
    /// was last asked for another one and may be asked.
    pub fn finish(&mut self, connections: &mut Connections<Mbim, Client>, side: &mut ModemSide)
        requires { IsOf connections.old side.old (hand_of self.old) }
        ensures told { state_of connections.new side.new ≡ finish (setup_of side.old) (state_of connections.old side.old) }
        ensures agrees { IsOf connections.new side.new (hand_of self.new) }
    {
        if self.asked {
            return;
        }
        self.asked = side.send_list(self.subscriptions.merged_list());
    }

    // No client is open any more.
    fn shut_all(&mut self, connections: &mut Connections<Mbim, Client>)
        ensures shut { (s : Setup) → connections.new ≡ record connections.old { present = shut_all s connections.old.present } }
        ensures follows { self.old.subscriptions ≡ map subscriber_at connections.old.present → self.new.subscriptions ≡ map subscriber_at connections.new.present }
        ensures asked { self.new.asked ≡ true → (self.old.asked ≡ true) × (self.new.subscriptions ≡ self.old.subscriptions) }
    {
        for place in 0..connections.present() {
            let client = connections.client_mut(place);
            client.shut();
            self.follow(connections, place);
        }
    }
}

// An answer frees its number. Gives who asked, and what, where somebody still waits for it.
fn settle(side: &mut ModemSide, answer: Answer, number: u32) -> Option<(u64, Asked)>
    ensures settles { (table : Table TableClient) → Settles (heard_of answer) number (state_of table side.old) (state_of table side.new) result }
    ensures setup { setup_of side.new ≡ setup_of side.old }
    ensures list { side.new.last_list ≡ side.old.last_list }
{
    let (name, asked, waits) = side.look(number)?;
    if !answer.is_for(&asked) {
        return None;
    }
    side.free(number);
    if !waits {
        return None;
    }
    Some((name, asked))
}

// Whether the client is open and wants the indication with this head.
fn is_receiver(client: &Client, head: &IndicationHead) -> bool
    ensures { result ≡ is_receiver head.now client.now }
{
    client.opened() && client.wants(head.uuid, head.cid)
}

// A client gets these bytes, or is dropped where they find no room. Says whether it wasn't dropped.
fn put(
    connections: &mut Connections<Mbim, Client>,
    side: &mut ModemSide,
    name: ConnId,
    bytes: &[u8],
) -> bool
    ensures told { state_of connections.new side.new ≡ tell give_up (λ _. bytes.now) (λ client. client) name (state_of connections.old side.old) }
    ensures stays { result ≡ finds_room bytes.now (connection_in name connections.old.present) }
    ensures regular { IsRegular connections.old }
    ensures limit { connections.new.limit ≡ connections.old.limit }
    ensures setup { setup_of side.new ≡ setup_of side.old }
    ensures list { side.new.last_list ≡ side.old.last_list }
{
    match connections.find(name) {
        Some(place) => put_at(connections, side, place, name, bytes, &[]),
        None => true,
    }
}

// The client of this name, which stands at this place, gets the bytes of both runs, one run behind the
// other, or is dropped where they find no room. Says whether it wasn't dropped.
fn put_at(
    connections: &mut Connections<Mbim, Client>,
    side: &mut ModemSide,
    place: usize,
    name: ConnId,
    head: &[u8],
    rest: &[u8],
) -> bool
    requires { Some place ≡ position (λ k. name == k.name) connections.old.present }
    ensures told { state_of connections.new side.new ≡ tell give_up (λ _. head.now ++ rest.now) (λ client. client) name (state_of connections.old side.old) }
    ensures stays { result ≡ finds_room (head.now ++ rest.now) (connection_in name connections.old.present) }
    ensures limit { connections.new.limit ≡ connections.old.limit }
    ensures setup { setup_of side.new ≡ setup_of side.old }
    ensures list { side.new.last_list ≡ side.old.last_list }
{
    if connections.tell_at(place, name, head, rest) {
        return true;
    }
    side.give_up(name);
    false
}
