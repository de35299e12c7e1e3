ghost use Rattle.std.specs.Prelude.{◌≡◌, ◌≤◌, length};
ghost use Rattle.mbim_frame.specs.Bodies.{uuid_of, cid_of};
ghost use Rattle.mbim_proxy.specs.Forwarding.{own_open};
ghost use Rattle.mbim_state.specs.Core.{setup_of};
ghost use Rattle.mbim_state.specs.Transitions.{number_at};
ghost use Rattle.mbim_clients.specs.declared.request.Request.TheVariants as request;
ghost use Rattle.mbim_clients.specs.Requests.{request_of};
ghost use Rattle.mbim_clients.specs.Replies.{IsHeard, done_head_to};
ghost use Rattle.mbim_clients.specs.Commands.{opens_under};

use crate::client::Client;
use crate::command::own_reply;
use crate::modem::Modem;
use crate::reply::Reply;
use crate::request::Request;
use crate::sending::{send_command, send_open};
use crate::side::ModemSide;
use connections::Hears;
use kit_bytes::{ConnId, u32_at, uuid_at};
use mbim_fragments::{Body, Took};
use mbim_frame::error::{OUT_OF_SEQUENCE, TOO_LONG};
use mbim_frame::status::{BUSY, FAILURE, NOT_INITIALIZED, SUCCESS};
use mbim_frame::{DoneHead, MHead, Mbim};
use mbim_state::CommandName;
use outbox::Outbox;

/// The status of the answer to a command of a client of which as many wait as may.
const SHARE_PASSED: u32 = 13;

impl Hears<Mbim, Client> for ModemSide {
    ghost use Rattle.mbim_state.specs.Core.{setup_of};
    ghost use Rattle.mbim_state.specs.Transitions.{hear_client};
    ghost use Rattle.mbim_clients.specs.Hearing.{hear_client-capacity};

    ghost hears = { λ c m client outbox side. hear_client (setup_of side) c m client outbox side };

    ghost capacity = { hear_client-capacity };

    fn hear(
        &mut self,
        name: ConnId,
        message: &[u8],
        client: &mut Client,
        outbox: &mut Outbox,
    ) -> bool {
        let number = MHead::read(message).number;
        let Some(reply) = self.decide(name, message, client) else {
            return true;
        };
        reply.queue(number, client, &mut self.writer, outbox)
    }
}

impl ModemSide {
    // Decides on a message of the connection of this name. None where a request goes to the modem for it.
    fn decide(&mut self, name: ConnId, message: &[u8], client: &mut Client) -> Option<Reply>
        requires { 12 ≤ length message.now }
        ensures { IsHeard name message.now client.old self.old result client.new self.new }
    {
        match Request::read(message) {
            Request::HostError => Some(Reply::Silent),
            Request::Open(asked) => self.decide_opening(name, message, asked, client),
            Request::Close => Some(client.close()),
            Request::Command => self.decide_command(name, message, client),
            Request::Wrong(code) => Some(Reply::Error(code)),
        }
    }

    // Decides on a request to open the modem, with fragments of the length that is asked for.
    fn decide_opening(
        &mut self,
        name: ConnId,
        message: &[u8],
        asked: u32,
        client: &mut Client,
    ) -> Option<Reply>
        requires head { 12 ≤ length message.now }
        requires opens { request_of message.now ≡ request.Open asked }
        ensures { IsHeard name message.now client.old self.old result client.new self.new }
    {
        let number = MHead::read(message).number;
        client.ask_fragment(asked);
        if !client.is_configured() {
            return Some(Reply::Opened(NOT_INITIALIZED));
        }
        if client.waits().is_some() {
            return Some(Reply::Opened(BUSY));
        }
        match self.modem {
            Modem::Away => Some(Reply::Opened(FAILURE)),
            Modem::Ready => {
                client.open_now();
                Some(Reply::Opened(SUCCESS))
            }
            Modem::Opening => {
                self.askers.ask(name);
                client.wait(number);
                Some(Reply::Silent)
            }
            Modem::Shut => {
                let Some(_) = self.open_modem() else {
                    return Some(Reply::Opened(BUSY));
                };
                self.askers.ask(name);
                client.wait(number);
                None
            }
        }
    }

    // The proxy itself asks the modem to open, under the number that it gets, if it gets one.
    fn open_modem(&mut self) -> Option<u32>
        ensures number { result ≡ number_at (setup_of self.old) (own_open (setup_of self.old)) self.old }
        ensures side { self.new ≡ opens_under (setup_of self.old) result self.old }
    {
        let deadline = self.time.saturating_add(self.time_limit);
        let number = send_open(&mut self.traffic, deadline)?;
        self.modem = Modem::Opening;
        Some(number)
    }

    // Decides on a fragment of a command.
    fn decide_command(&mut self, name: ConnId, message: &[u8], client: &mut Client) -> Option<Reply>
        requires heads { 20 ≤ length message.now }
        requires carries { request_of message.now ≡ request.Command }
        ensures { IsHeard name message.now client.old self.old result client.new self.new }
    {
        match client.take(message, &mut self.body) {
            Took::OutOfSequence => return Some(Reply::Error(OUT_OF_SEQUENCE)),
            Took::TooLong => return Some(Reply::Error(TOO_LONG)),
            Took::More => return Some(Reply::Silent),
            Took::Message => {}
        }
        let reply = own_reply(client, &self.device, &self.body, &mut self.list);
        if reply.is_some() {
            return reply;
        }
        if self.traffic.has_share(name) {
            return Some(Reply::Done(refused(&self.body, SHARE_PASSED)));
        }
        let kept = kept_of(MHead::read(message).number, &self.body);
        let deadline = self.time.saturating_add(self.time_limit);
        let sent = send_command(
            &mut self.traffic,
            &mut self.writer,
            name,
            kept,
            &self.body,
            deadline,
        );
        if sent.is_some() {
            return None;
        }
        Some(Reply::Done(refused(&self.body, BUSY)))
    }
}

// What is kept of a command that goes to the modem.
fn kept_of(number: u32, body: &Body) -> CommandName
    requires { 20 ≤ length body.now }
    ensures { result ≡ record { number = number; uuid = uuid_of body.now; cid = cid_of body.now } }
{
    let command = body.as_slice();
    CommandName {
        number,
        uuid: uuid_at(command, 0),
        cid: u32_at(command, 16),
    }
}

// The head of the answer to a command that doesn't go to the modem.
fn refused(body: &Body, status: u32) -> DoneHead
    requires { 20 ≤ length body.now }
    ensures { result ≡ done_head_to body.now status }
{
    let command = body.as_slice();
    DoneHead {
        uuid: uuid_at(command, 0),
        cid: u32_at(command, 16),
        status,
    }
}
