//! What is known of the modem's host.

ghost use Rattle.std.specs.Prelude.{◌≡◌, ◌≤◌, ◌&&◌, ◌==◌, [], bytes_eq, is_some, length, unwrap_or, IfOk, IfSome, OnOk};
ghost use Rattle.kit_bytes.specs.Indications as indications;
ghost use Rattle.kit_bytes.specs.declared.services.TheConstants.{BASIC_CONNECT};
ghost use Rattle.mbim_frame.specs.Bodies.{buffer_of};
ghost use Rattle.mbim_frame.specs.Fragment.{body_of};
ghost use Rattle.mbim_services.specs.SubscribeLists.{list_of_buffer};
ghost use Rattle.ruled_modem.specs.Host as spec;
ghost use Rattle.ruled_modem.specs.Requests.{command_in};
ghost use Rattle.sim_mbim.specs.BasicConnect.{list_taken};

use crate::requests::command_in;
use kit_bytes::{Kind, Octets, services, u16_at};
use mbim_frame::{CommandHead, body_in, buffer_in};
use mbim_services::Events;
use modem_rules::RequestKind;
use sim_mbim::{Request, takes_list};
use std::alloc::{AllocError, Global};
use std::marker::Model;
use subscriptions::ClientList;
use uuid::Uuid;

// How many bytes a message of MBIM has at least and at most that may be asked for.
const SHORTEST_MESSAGE: u32 = 64;

const LONGEST_MESSAGE: u32 = 4_096;

// The CID of the list of subscriptions, a command of Basic Connect.
const SUBSCRIBE_LIST: u32 = 19;

// The messages of CTL that give a client id, and take one back.
const ALLOCATE: u16 = 0x0022;

const RELEASE: u16 = 0x0023;

/// What is known of a modem's host by the messages that reached the modem, and by what it answered.
#[derive(Drop)]
pub struct Host {
    // how many bytes an MBIM message to it may have, since it opened the modem
    opened: Option<u32>,
    // the buffer of the list of subscriptions that it set last
    list: Option<Octets>,
    // the service of each client id that is given
    services: Vec<u8>,
}

impl Model for Host {
    ghost use Rattle.std.specs.Prelude.{◌≤◌, IfSome};
    ghost use Rattle.ruled_modem.specs.Host as spec;

    ghost Value = { spec.Host };

    ghost view = { λ host. record { opened = host.opened; list = host.list; services = host.services.items } };

    ghost invariant = { λ host. IfSome host.opened (λ longest. (64 ≤ longest) × (longest ≤ 4096)) };
}

impl Host {
    /// Before any message.
    pub(crate) fn new(alloc: Global) -> Self
        ensures { result ≡ spec.fresh }
    {
        Host {
            opened: None,
            list: None,
            services: Vec::new(alloc),
        }
    }

    /// Takes in a message that reached the modem, and its answer.
    pub(crate) fn hear(
        &mut self,
        alloc: Global,
        kind: Kind,
        message: &[u8],
        answer: &[u8],
    ) -> Result<(), AllocError>
        ensures { OnOk result (self.new ≡ spec.host_then kind message.now answer.now self.old) }
    {
        match kind {
            Kind::Qmi => self.hear_qmi(answer),
            Kind::Mbim => self.hear_mbim(alloc, message),
        }
    }

    fn hear_qmi(&mut self, answer: &[u8]) -> Result<(), AllocError>
        ensures { OnOk result (self.new ≡ record self.old { services = spec.services_then answer.now self.old.services }) }
    {
        add_service(&mut self.services, service_in(ALLOCATE, answer))?;
        take_service(&mut self.services, service_in(RELEASE, answer));
        Ok(())
    }

    fn hear_mbim(&mut self, alloc: Global, message: &[u8]) -> Result<(), AllocError>
        ensures { OnOk result (self.new ≡ record self.old { opened = spec.opened_then message.now self.old.opened; list = spec.list_then message.now self.old }) }
    {
        let list = self.list_in(alloc, message)?;
        self.set_list(list);
        self.opened = opened_then(message, self.opened);
        Ok(())
    }

    // The buffer of a list that a message sets, where the modem is open.
    fn list_in(&self, alloc: Global, message: &[u8]) -> Result<Option<Octets>, AllocError>
        ensures { IfOk result (λ list. spec.list_or self.now.list list ≡ spec.list_then message.now self.now) }
    {
        if self.opened.is_none() {
            return Ok(None);
        }
        list_by(alloc, message)
    }

    fn set_list(&mut self, list: Option<Octets>)
        ensures { self.new ≡ record self.old { list = spec.list_or self.old.list list } }
    {
        if list.is_some() {
            self.list = list;
        }
    }

    /// Whether indications of this kind go to it.
    pub(crate) fn hears(&self, kind: &RequestKind) -> bool
        ensures { result ≡ spec.hears self.now kind.now }
    {
        match kind {
            RequestKind::Message { service, .. } => *service == 0 || has(&self.services, *service),
            RequestKind::Command { service, command } => {
                self.opened.is_some() && self.wants(*service, *command)
            }
        }
    }

    // Whether its list has this CID of a service.
    fn wants(&self, service: Uuid, command: u32) -> bool
        ensures { result ≡ indications.wants (spec.pairs_of self.now.list) service command }
    {
        match &self.list {
            None => ClientList::new().wants(service, command),
            Some(buffer) => list_wants(buffer.as_slice(), service, command),
        }
    }

    /// How many bytes a message to it has at most.
    pub(crate) fn longest(&self) -> u32
        ensures longest { result ≡ spec.longest self.now }
        ensures least { 64 ≤ result }
        ensures most { result ≤ 4096 }
    {
        match self.opened {
            Some(longest) => longest,
            None => LONGEST_MESSAGE,
        }
    }
}

// ---- MBIM ----

// How many bytes a message may have behind this one.
fn opened_then(message: &[u8], opened: Option<u32>) -> Option<u32>
    ensures exact { result ≡ spec.opened_then message.now opened }
    ensures within { IfSome opened (λ longest. (64 ≤ longest) × (longest ≤ 4096)) → IfSome result (λ longest. (64 ≤ longest) × (longest ≤ 4096)) }
{
    if message.len() < 12 {
        return opened;
    }
    match Request::read(message) {
        Request::Open(longest) => Some(longest.max(SHORTEST_MESSAGE).min(LONGEST_MESSAGE)),
        _ => opened,
    }
}

// The buffer of the list that a message sets.
fn list_by(alloc: Global, message: &[u8]) -> Result<Option<Octets>, AllocError>
    ensures { IfOk result (λ list. list ≡ spec.list_by (buffer_of (body_of message.now)) (command_in message.now)) }
{
    let Some(head) = command_in(message) else {
        return Ok(None);
    };
    let buffer = buffer_in(body_in(message));
    if !is_list(&head, buffer) {
        return Ok(None);
    }
    Ok(Some(Octets::from_slice(alloc, buffer)?))
}

fn is_list(head: &CommandHead, buffer: &[u8]) -> bool
    ensures { result ≡ (spec.sets_list head.now && is_some (list_taken buffer.now)) }
{
    sets_list(head) && takes_list(buffer)
}

fn sets_list(head: &CommandHead) -> bool
    ensures { result ≡ spec.sets_list head.now }
{
    head.set && head.uuid == Uuid::from_bytes(services::BASIC_CONNECT) && head.cid == SUBSCRIBE_LIST
}

// Whether the list of a buffer has this CID of a service.
fn list_wants(buffer: &[u8], service: Uuid, command: u32) -> bool
    ensures { result ≡ indications.wants (unwrap_or (list_of_buffer buffer.now) []) service command }
{
    let Some(mut events) = Events::read(buffer) else {
        return false;
    };
    'events: while let Some(pair) = events.next() {
        if asks(&pair, service, command) {
            return true;
        }
    }
    false
}

fn asks(pair: &(Uuid, Option<u32>), service: Uuid, command: u32) -> bool
    ensures { result ≡ (bytes_eq pair.now.0 service && indications.is_cid command pair.now.1) }
{
    pair.0 == service && pair.1.is_none_or(|number| number == command)
}

// ---- QMI ----

// The service that a success of CTL with this message id names.
fn service_in(id: u16, answer: &[u8]) -> Option<u8>
    ensures { result ≡ spec.service_in id answer.now }
{
    let found = answer.len() == 24
        && answer[4] == 0
        && u16_at(answer, 8) == id
        && u16_at(answer, 17) == 0;
    if found { Some(answer[22]) } else { None }
}

fn has(services: &[u8], service: u8) -> bool
    ensures { result ≡ spec.has services.now service }
{
    services.iter().any(|other| *other == service)
}

fn add_service(services: &mut Vec<u8>, service: Option<u8>) -> Result<(), AllocError>
    ensures { OnOk result (services.new.items ≡ spec.with_allocated service services.old.items) }
{
    let Some(service) = service else {
        return Ok(());
    };
    services.push(service)?;
    Ok(())
}

fn take_service(services: &mut Vec<u8>, service: Option<u8>)
    ensures { services.new.items ≡ spec.without_released service services.old.items }
{
    if let Some(service) = service
        && let Some(place) = place_of(services, service)
    {
        services.remove(place);
    }
}

// Where the first id of a service stands.
fn place_of(services: &[u8], service: u8) -> Option<usize>
    ensures { result ≡ spec.place_of services.now service }
{
    services.iter().position(|other| *other == service)
}
