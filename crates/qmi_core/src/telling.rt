ghost use Rattle.std.specs.Prelude.{◌≡◌, ◌+◌, ◌<◌, ◌≤◌, ◌==◌, ◌++◌, length, Some};
ghost use Rattle.connections.specs.Table.{Connection as TableConnection, Table, connection_in, finds_room};
ghost use Rattle.qmux_frame.specs.Frame.{size_of};
ghost use Rattle.qmux_frame.specs.Head.{is_control, number_of};
ghost use Rattle.qmux_frame.specs.Reply.{with_number};
ghost use Rattle.proxy_core.specs.Meaning.{state_of};
ghost use Rattle.proxy_state.specs.Chosen.{StandsAt};
ghost use Rattle.proxy_state.specs.Step as proxy;
ghost use Rattle.qmi_state.specs.declared.client.Client.{Client as TableClient};
ghost use Rattle.qmi_state.specs.Transitions.{tell, expires_space, expires, aborts, forgets_all, responds, indicates, hears_indication, hears_modem, releases_due, shows, tick, lose, qmi_handlers};
ghost use Rattle.qmi_core.specs.State.{NextReleased, is_chosen, tell_from, answers_from, answers_noted, allocates, refuses_from};

use crate::errors::{ABORTED, CLIENT_IDS_EXHAUSTED};
use crate::message::Message;
use crate::side::ModemSide;
use crate::traffic::PROXY;
use connections::Connections;
use framing::LONGEST_PIECE;
use kit_bytes::ConnId;
use qmi_state::{Asked, Client};
use qmux_frame::{MessageKind, Qmux};

/// The client id of an indication that is for each client of its service.
const EVERYBODY: u8 = 255;

/// A piece of a client's stream.
pub fn bring(
    connections: &mut Connections<Qmux, Client>,
    side: &mut ModemSide,
    name: ConnId,
    piece: &[u8],
)
    requires { length piece.now ≤ LONGEST_PIECE }
    ensures brought { state_of connections.new side.new ≡ proxy.bring qmi_handlers size_of name piece.now (state_of connections.old side.old) }
    ensures limit { connections.new.limit ≡ connections.old.limit }
{
    if !connections.bring(name, piece, side) {
        side.give_up(name);
    }
}

// A client gets both runs of bytes, or is dropped where they find no room. Says whether it wasn't
// dropped.
fn tell(
    connections: &mut Connections<Qmux, Client>,
    side: &mut ModemSide,
    name: ConnId,
    head: &[u8],
    rest: &[u8],
) -> bool
    ensures told { state_of connections.new side.new ≡ tell name (head.now ++ rest.now) (state_of connections.old side.old) }
    ensures stays { result ≡ finds_room (head.now ++ rest.now) (connection_in name connections.old.present) }
    ensures limit { connections.new.limit ≡ connections.old.limit }
{
    if connections.tell(name, head, rest) {
        return true;
    }
    side.give_up(name);
    false
}

// A client gets these bytes, or is dropped where they find no room. Says whether it wasn't dropped.
fn send(
    connections: &mut Connections<Qmux, Client>,
    side: &mut ModemSide,
    name: ConnId,
    bytes: &[u8],
) -> bool
    ensures told { state_of connections.new side.new ≡ tell name bytes.now (state_of connections.old side.old) }
    ensures stays { result ≡ finds_room bytes.now (connection_in name connections.old.present) }
    ensures limit { connections.new.limit ≡ connections.old.limit }
{
    tell(connections, side, name, bytes, &[])
}

// Whether the connection of this place is one of those that an indication is for.
fn is_chosen(
    connections: &Connections<Qmux, Client>,
    side: &ModemSide,
    audience: Option<u8>,
    index: usize,
) -> bool
    requires { index < length connections.now.present }
    ensures { (k : TableConnection Client) → StandsAt k connections.now.present index → result ≡ is_chosen audience side.now k }
{
    match audience {
        Some(service) => side.traffic.holds_any(connections.name_at(index), service),
        None => {
            let client = connections.client_at(index);
            client.opened
        }
    }
}

// Each client that has opened the device, or that holds an id of the service, gets these bytes.
fn tell_each(
    connections: &mut Connections<Qmux, Client>,
    side: &mut ModemSide,
    audience: Option<u8>,
    bytes: &[u8],
)
    requires { connections.old.limit ≤ 64 }
    ensures told { state_of connections.new side.new ≡ tell_from audience bytes.now 0 (state_of connections.old side.old) }
    ensures limit { connections.new.limit ≡ connections.old.limit }
{
    let mut index = 0;
    while index < connections.present() {
        index = tell_at(connections, side, audience, index, bytes);
    }
}

// The client of this place gets the bytes where they are for it. Gives the place of the next one.
fn tell_at(
    connections: &mut Connections<Qmux, Client>,
    side: &mut ModemSide,
    audience: Option<u8>,
    index: usize,
    bytes: &[u8],
) -> usize
    requires here { index < length connections.old.present }
    requires few { connections.old.limit ≤ 64 }
    ensures told { tell_from audience bytes.now result (state_of connections.new side.new) ≡ tell_from audience bytes.now index (state_of connections.old side.old) }
    ensures fewer { length connections.new.present + index < length connections.old.present + result }
    ensures limit { connections.new.limit ≡ connections.old.limit }
{
    let name = connections.name_at(index);
    if !is_chosen(connections, side, audience, index) {
        return index + 1;
    }
    if send(connections, side, name, bytes) {
        return index + 1;
    }
    index
}

// Refuses the requests of a space whose time has come.
fn expire_space(
    connections: &mut Connections<Qmux, Client>,
    side: &mut ModemSide,
    control: bool,
    time: u64,
)
    ensures told { state_of connections.new side.new ≡ expires_space control time (state_of connections.old side.old) }
    ensures limit { connections.new.limit ≡ connections.old.limit }
{
    while let Some((name, asked)) = side.traffic.expire(control, time) {
        refuse(connections, side, name, &asked);
    }
}

// A request gets no answer: its sender is refused, or nobody holds the id that the proxy itself
// was to release.
fn refuse(
    connections: &mut Connections<Qmux, Client>,
    side: &mut ModemSide,
    name: ConnId,
    asked: &Asked,
)
    ensures told { state_of connections.new side.new ≡ refuses_from (name == 0) name asked.now (state_of connections.old side.old) }
    ensures limit { connections.new.limit ≡ connections.old.limit }
{
    if name == PROXY {
        side.traffic.release(PROXY, asked.service, asked.cid);
    } else {
        let reply = asked.reply(ABORTED);
        send(connections, side, name, reply.bytes());
    }
}

/// The clock shows this time: requests whose time is over are refused, and then the ids are
/// released that are kept for so long.
pub fn tick(connections: &mut Connections<Qmux, Client>, side: &mut ModemSide, time: u64)
    ensures shown { state_of connections.new side.new ≡ tick time (state_of connections.old side.old) }
    ensures limit { connections.new.limit ≡ connections.old.limit }
{
    let release = side.release;
    show(connections, side, time);
    if let Some(after) = release {
        release_due(side, after);
    }
}

fn show(connections: &mut Connections<Qmux, Client>, side: &mut ModemSide, time: u64)
    ensures told { state_of connections.new side.new ≡ shows time (state_of connections.old side.old) }
    ensures limit { connections.new.limit ≡ connections.old.limit }
{
    let now = time.max(side.time);
    side.time = now;
    expire(connections, side, now);
}

// The ids that are kept for so long are released, up to the first for which no number is free or
// no room is there.
fn release_due(side: &mut ModemSide, after: u64)
    ensures { (table : Table TableClient) → state_of table side.new ≡ releases_due (Some after) (state_of table side.old) }
{
    loop {
        if !release_next(side, after) {
            return;
        }
    }
}

// The first id that is kept for so long is released. Says whether one is, and went.
fn release_next(side: &mut ModemSide, after: u64) -> bool
    ensures { (table : Table TableClient) → NextReleased after (state_of table side.old) (state_of table side.new) result }
{
    let deadline = side.deadline();
    let Some((service, cid)) = side.traffic.due(side.time, after) else {
        return false;
    };
    side.traffic.ask_release(service, cid, deadline)
}

// The requests whose time has come are refused.
fn expire(connections: &mut Connections<Qmux, Client>, side: &mut ModemSide, time: u64)
    ensures told { state_of connections.new side.new ≡ expires time (state_of connections.old side.old) }
    ensures limit { connections.new.limit ≡ connections.old.limit }
{
    expire_space(connections, side, true, time);
    expire_space(connections, side, false, time);
}

// All that waits is refused, and the modem knows of no number and no client id.
fn abort(connections: &mut Connections<Qmux, Client>, side: &mut ModemSide)
    ensures told { state_of connections.new side.new ≡ forgets_all (aborts (state_of connections.old side.old)) }
    ensures limit { connections.new.limit ≡ connections.old.limit }
{
    expire(connections, side, u64::MAX);
    side.traffic.forget();
}

/// The modem is lost, and away from here on.
pub fn lose(connections: &mut Connections<Qmux, Client>, side: &mut ModemSide)
    ensures lost { state_of connections.new side.new ≡ lose (state_of connections.old side.old) }
    ensures limit { connections.new.limit ≡ connections.old.limit }
{
    abort(connections, side);
    side.traffic.clear_queue();
    side.away = true;
}

/// A whole message of the modem.
pub fn hear_modem(connections: &mut Connections<Qmux, Client>, side: &mut ModemSide, message: &[u8])
    requires least { 12 ≤ length message.now }
    requires few { connections.old.limit ≤ 64 }
    ensures heard { state_of connections.new side.new ≡ hears_modem message.now (state_of connections.old side.old) }
    ensures limit { connections.new.limit ≡ connections.old.limit }
{
    let message = Message::read(message);
    match message.kind() {
        Some(MessageKind::Response) => respond(connections, side, &message),
        Some(MessageKind::Indication) => hear_indication(connections, side, &message),
        Some(MessageKind::Request) | None => {}
    }
}

// A response frees its number. Where its sender still waits, it is an answer.
fn respond(connections: &mut Connections<Qmux, Client>, side: &mut ModemSide, message: &Message<'_>)
    ensures told { state_of connections.new side.new ≡ responds message.now (state_of connections.old side.old) }
    ensures limit { connections.new.limit ≡ connections.old.limit }
{
    let control = message.is_control();
    let number = message.number();
    let Some((name, asked, waits)) = side.traffic.look(control, number) else {
        return;
    };
    if !asked.fits(message.service(), message.cid()) {
        return;
    }
    side.traffic.free(control, number);
    if waits {
        answer(connections, side, name, &asked, message);
    }
}

// The answer to a client's request, or to the proxy's own, whatever that one says: nobody holds the
// id any more.
fn answer(
    connections: &mut Connections<Qmux, Client>,
    side: &mut ModemSide,
    name: ConnId,
    asked: &Asked,
    message: &Message<'_>,
)
    requires { is_control asked.now.head ≡ is_control message.now }
    ensures told { state_of connections.new side.new ≡ answers_from (name == 0) name asked.now message.now (state_of connections.old side.old) }
    ensures limit { connections.new.limit ≡ connections.old.limit }
{
    if name == PROXY {
        side.traffic.release(PROXY, asked.service, asked.cid);
    } else {
        answer_client(connections, side, name, asked, message);
    }
}

// A client gets the answer to its request, and what it brings or ends of a client id.
fn answer_client(
    connections: &mut Connections<Qmux, Client>,
    side: &mut ModemSide,
    name: ConnId,
    asked: &Asked,
    message: &Message<'_>,
)
    requires { is_control asked.now.head ≡ is_control message.now }
    ensures told { state_of connections.new side.new ≡ answers_noted name asked.now message.now (state_of connections.old side.old) }
    ensures limit { connections.new.limit ≡ connections.old.limit }
{
    if asked.is_allocate() && message.tells_id() {
        return answer_allocate(connections, side, name, asked, message);
    }
    if asked.is_release() && message.is_success() {
        side.traffic.release(name, asked.service, asked.cid);
    }
    deliver(connections, side, name, asked, message);
}

// The id that the modem gave is the client's, unless another one holds it.
fn answer_allocate(
    connections: &mut Connections<Qmux, Client>,
    side: &mut ModemSide,
    name: ConnId,
    asked: &Asked,
    message: &Message<'_>,
)
    requires { is_control asked.now.head ≡ is_control message.now }
    ensures told { state_of connections.new side.new ≡ allocates name asked.now message.now (state_of connections.old side.old) }
    ensures limit { connections.new.limit ≡ connections.old.limit }
{
    if side.traffic.grant(name, message.byte(0), message.byte(1)) {
        deliver(connections, side, name, asked, message);
    } else {
        let reply = asked.reply(CLIENT_IDS_EXHAUSTED);
        send(connections, side, name, reply.bytes());
    }
}

// A client gets the message under its own number.
fn deliver(
    connections: &mut Connections<Qmux, Client>,
    side: &mut ModemSide,
    name: ConnId,
    asked: &Asked,
    message: &Message<'_>,
)
    requires { is_control asked.now.head ≡ is_control message.now }
    ensures told { state_of connections.new side.new ≡ tell name (with_number (number_of asked.now.head) message.now) (state_of connections.old side.old) }
    ensures limit { connections.new.limit ≡ connections.old.limit }
{
    let head = message.numbered(asked.number());
    tell(connections, side, name, &head, message.rest());
}

// A Sync comes behind the refusal of all that waits.
fn hear_indication(
    connections: &mut Connections<Qmux, Client>,
    side: &mut ModemSide,
    message: &Message<'_>,
)
    requires { connections.old.limit ≤ 64 }
    ensures told { state_of connections.new side.new ≡ hears_indication message.now (state_of connections.old side.old) }
    ensures limit { connections.new.limit ≡ connections.old.limit }
{
    if message.is_sync() {
        abort(connections, side);
        indicate(connections, side, message);
    } else if message.is_control() || message.cid() != 0 {
        indicate(connections, side, message);
    }
}

// Of service 0 it is for each client that is open, of client id 255 for each that holds an id of
// the service, and else for the holder of the id.
fn indicate(
    connections: &mut Connections<Qmux, Client>,
    side: &mut ModemSide,
    message: &Message<'_>,
)
    requires { connections.old.limit ≤ 64 }
    ensures told { state_of connections.new side.new ≡ indicates message.now (state_of connections.old side.old) }
    ensures limit { connections.new.limit ≡ connections.old.limit }
{
    if message.is_control() {
        return tell_each(connections, side, None, message.bytes());
    }
    if message.cid() == EVERYBODY {
        return tell_each(connections, side, Some(message.service()), message.bytes());
    }
    if let Some(name) = side.traffic.holder(message.service(), message.cid()) {
        send(connections, side, name, message.bytes());
    }
}
