ghost use Rattle.std.specs.Prelude.{◌≡◌, ◌≤◌, ◌++◌, [], ◌&&◌, ◌==◌, if◌then◌else◌, length, IfOk, OnOk};
ghost use Rattle.kit_bytes.specs.Indications as indications;
ghost use Rattle.mbim_frame.specs.Bodies.{read_command};
ghost use Rattle.mbim_frame.specs.Head.{number_of};
ghost use Rattle.mbim_frame.specs.Writing as writing;
ghost use Rattle.mbim_fragments.specs.Assembling.{joining_behind, assembled_after};
ghost use Rattle.mbim_fragments.specs.Runs.{longest_body};
ghost use Rattle.sim_modem.specs.Sim.{answers};
ghost use Rattle.sim_mbim.specs.Answers.{Keeps, fresh, machine, says, state_at, exchange_at, exchange_at_command, exchange_at_joining};
ghost use Rattle.sim_mbim.specs.Writing as spec;

use crate::commands::Reply;
use crate::lists::wants;
use crate::modem::Modem;
use crate::request::Request;
use crate::writing::{indication, reply_done};
use kit_bytes::Octets;
use mbim_fragments::{Assembly, Body, Took};
use mbim_frame::error::{LENGTH_MISMATCH, NOT_OPENED, OUT_OF_SEQUENCE, TOO_LONG};
use mbim_frame::status::SUCCESS;
use mbim_frame::{CommandHead, MHead, Mbim, buffer_in, close_done, function_error, open_done};
use mbim_services::Service;
use modem_profile::Profile;
use sim_modem::Sim;
use std::alloc::{AllocError, Global};
use std::marker::Model;
use uuid::Uuid;

// The CID of the radio, a command of Basic Connect.
const RADIO_STATE: u32 = 3;

/// An MBIM modem that is simulated.
#[derive(Drop)]
pub struct MbimSim {
    alloc: Global,
    // what has come of a command of which more fragments are due
    begun: Assembly,
    // the last command that came whole
    body: Body,
    modem: Modem,
}

impl Model for MbimSim {
    ghost use Rattle.sim_mbim.specs.Answers as spec;

    ghost Value = { spec.State };

    ghost view = { λ sim. record { begun = sim.begun; modem = sim.modem } };
}

impl MbimSim {
    /// A modem that is started with this profile, and that nothing was asked of yet.
    pub fn open(alloc: Global, profile: &Profile) -> Result<Self, AllocError>
        ensures fresh { IfOk result (λ sim. sim ≡ fresh profile.now) }
        ensures keeps { IfOk result (λ sim. Keeps (answers (machine profile.now)) [] sim) }
    {
        let begun = Assembly::open(alloc)?;
        let body = Body::open(alloc)?;
        let modem = Modem::start(alloc, profile)?;
        Ok(MbimSim {
            alloc,
            begun,
            body,
            modem,
        })
    }

    /// What is said to a message. Where memory runs out, the modem is only to be dropped.
    pub fn hear(&mut self, message: &[u8]) -> Result<Octets, AllocError>
        requires { 12 ≤ length message.now }
        ensures text { IfOk result (λ text. text ≡ (exchange_at message.now self.old).text) }
        ensures state { OnOk result (self.new ≡ state_at message.now self.old) }
    {
        let number = MHead::read(message).number;
        match Request::read(message) {
            Request::Open(longest) => {
                self.modem.open(longest);
                Ok(Octets::from_slice(self.alloc, &open_done(number, SUCCESS))?)
            }
            Request::Close => Ok(Octets::from_slice(self.alloc, &close_done(number, SUCCESS))?),
            Request::Command => Ok(self.hear_fragment(number, message)?),
            Request::Wrong => Ok(error(self.alloc, number, LENGTH_MISMATCH)?),
            Request::Other => Ok(Octets::new(self.alloc)),
        }
    }

    /// Whether it was opened.
    pub fn is_open(&self) -> bool
        ensures { result ≡ self.now.modem.opened }
    {
        self.modem.is_open()
    }

    /// How many bytes a message has at most that it sends.
    pub fn longest(&self) -> u32
        ensures longest { result ≡ self.now.modem.longest }
        ensures least { 64 ≤ result }
        ensures most { result ≤ 4096 }
    {
        self.modem.longest()
    }

    /// Whether its host listens to this CID of a service.
    pub fn is_heard(&self, service: Uuid, cid: u32) -> bool
        ensures { result ≡ indications.wants self.now.modem.subscribed service cid }
    {
        wants(&self.modem.subscribed, service, cid)
    }

    // What is said to a fragment of a command.
    fn hear_fragment(&mut self, number: u32, fragment: &[u8]) -> Result<Octets, AllocError>
        requires { 20 ≤ length fragment.now }
        ensures text { IfOk result (λ text. text ≡ (exchange_at_joining number self.old.modem (joining_behind longest_body self.old.begun fragment.now)).text) }
        ensures modem { OnOk result (self.new.modem ≡ (exchange_at_joining number self.old.modem (joining_behind longest_body self.old.begun fragment.now)).modem) }
        ensures begun { OnOk result (self.new.begun ≡ assembled_after longest_body self.old.begun fragment.now) }
    {
        match self.begun.take(fragment, &mut self.body) {
            Took::More => Ok(Octets::new(self.alloc)),
            Took::OutOfSequence => error(self.alloc, number, OUT_OF_SEQUENCE),
            Took::TooLong => error(self.alloc, number, TOO_LONG),
            Took::Message => Ok(self.modem.hear(self.alloc, number, self.body.as_slice())?),
        }
    }
}

impl Sim for MbimSim {
    ghost use Rattle.sim_mbim.specs.Answers.{Keeps};

    type Framing = Mbim;

    ghost keeps = { Keeps };

    fn ask(&mut self, message: &[u8]) -> Result<Octets, AllocError> {
        Ok(self.hear(message)?)
    }
}

impl Modem {
    // What is said to a command that this body spells, if it spells one.
    fn hear(&mut self, alloc: Global, number: u32, body: &[u8]) -> Result<Octets, AllocError>
        ensures { IfOk result (λ text. exchange_at_command number body.now self.old (read_command body.now) ≡ says self.new text) }
    {
        let Some(head) = CommandHead::read(body) else {
            return error(alloc, number, LENGTH_MISMATCH);
        };
        if !self.is_open() {
            return error(alloc, number, NOT_OPENED);
        }
        let reply = self.reply_to(alloc, &head, buffer_in(body))?;
        Ok(self.reply_text(alloc, number, &head, &reply)?)
    }

    // The answer, and behind it the indication, where there is one.
    fn reply_text(
        &self,
        alloc: Global,
        number: u32,
        head: &CommandHead,
        reply: &Reply,
    ) -> Result<Octets, AllocError>
        ensures { IfOk result (λ text. text ≡ spec.reply_text number self.now.longest head.now (record { status = reply.now.status; buffer = reply.now.buffer; modem = self.now })) }
    {
        let mut text = reply_done(alloc, number, self.longest(), head, reply)?;
        if !self.is_indicated(head, reply.status) {
            return Ok(text);
        }
        let told = indication(alloc, self.longest(), head, reply.buffer.as_slice())?;
        text.extend_from_slice(told.as_slice())?;
        Ok(text)
    }

    // Whether a command that came to this status is told to whoever listens to it.
    fn is_indicated(&self, head: &CommandHead, status: u32) -> bool
        ensures { result ≡ spec.is_indicated head.now status self.now }
    {
        is_radio_set(head) && status == SUCCESS && wants(&self.subscribed, head.uuid, head.cid)
    }
}

fn is_radio_set(head: &CommandHead) -> bool
    ensures { result ≡ spec.is_radio_set head.now }
{
    head.set && head.uuid == Service::BasicConnect.uuid() && head.cid == RADIO_STATE
}

fn error(alloc: Global, number: u32, code: u32) -> Result<Octets, AllocError>
    ensures { IfOk result (λ text. text ≡ writing.function_error number code) }
{
    Octets::from_slice(alloc, &function_error(number, code))
}
