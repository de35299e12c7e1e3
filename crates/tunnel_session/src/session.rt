ghost use Rattle.std.specs.Prelude.{◌≡◌, ◌≤◌, Err};
ghost use Rattle.kit_io.specs.Causes.{Rose};
ghost use Rattle.mbim_frame.specs.Frame.{size_of};
ghost use Rattle.framing.specs.Framing.{IsMessage};
ghost use Rattle.qmux_frame.specs.Frame as qmux;
ghost use Rattle.link_session.specs.Asking.{Makes};
ghost use Rattle.link_session.specs.Hearing.{Stands};
ghost use Rattle.link_session.specs.Waiting.{Heard, nothing_heard};
ghost use Rattle.device_core.specs.Session.{Reads};
ghost use Rattle.tunnel_session.specs.Session.{Allocates, Chooses, Closes, Commands, Finishes, Opens, ReadsCommand, Releases, Session, TakesClient, end_with};

use crate::carried::{Carried, Message};
use crate::carrying::carry;
use crate::ends::{TunnelEnd, refusal, refusal_of_open};
use crate::request::CarriedRequest;
use device_core::{QmiPlan, allocated, command_number, failed, failure, read};
use link_io::Link;
use link_session::{Incoming, SessionFault};
use mbim_frame::Mbim;
use mbim_session::{close, configure, open};
use qmi_requests::QmiRequest;
use qmi_services::{QmiAnswer, QmiEnd, service_of};
use qmux_frame::tlvs_in;
use std::alloc::Global;

/// Whose a request is, and the number of the next one to service 0.
#[derive(Clone, Copy)]
struct Client {
    id: u8,
    control: u8,
}

/// A whole session with a QMI modem inside an MBIM modem, over a link to the latter that is open.
///
/// Where the plan is proxied, the proxy behind the link is asked for the device first. Then the MBIM
/// modem is opened, gets each request of the plan in a command of its own, and is closed. What it
/// refuses ends the session at once; a failure of the QMI modem before the command ends it behind that
/// CLOSE.
pub fn tunnel_session<L: Link>(
    alloc: Global,
    link: &mut L,
    plan: &QmiPlan,
) -> Result<TunnelEnd, SessionFault>
    ensures session { Makes (λ calls. Session plan.now calls result) (L.calls link.old) (L.calls link.new) }
    ensures link_fault { result ≡ Err SessionFault.LinkFault → Rose (L.faults link.old) (L.faults link.new) }
    ensures later { L.faults link.old ≤ L.faults link.new }
    ensures later_open { L.open_faults link.old ≤ L.open_faults link.new }
{
    let mut incoming = Incoming::open(alloc)?;
    carry_all(alloc, link, &mut incoming, plan)
}

/// All requests of a plan, where nothing has come yet.
fn carry_all<L: Link>(
    alloc: Global,
    link: &mut L,
    incoming: &mut Incoming<Mbim>,
    plan: &QmiPlan,
) -> Result<TunnelEnd, SessionFault>
    ensures session { Stands size_of incoming.old nothing_heard → Makes (λ calls. Session plan.now calls result) (L.calls link.old) (L.calls link.new) }
    ensures link_fault { result ≡ Err SessionFault.LinkFault → Rose (L.faults link.old) (L.faults link.new) }
    ensures later { L.faults link.old ≤ L.faults link.new }
    ensures later_open { L.open_faults link.old ≤ L.open_faults link.new }
{
    if !plan.proxied {
        return open_modem(alloc, link, incoming, plan, 1);
    }
    let configured = configure(alloc, link, incoming, &plan.device, plan.timeout)?;
    if let Some(refused) = refusal(configured.answer) {
        return Ok(refused);
    }
    open_modem(alloc, link, incoming, plan, 2)
}

/// Goes on once the link leads to the MBIM modem: opens it, under this number.
fn open_modem<L: Link>(
    alloc: Global,
    link: &mut L,
    incoming: &mut Incoming<Mbim>,
    plan: &QmiPlan,
    number: u32,
) -> Result<TunnelEnd, SessionFault>
    requires { number ≤ 2 }
    ensures opens { (heard : Heard) → Stands size_of incoming.old heard → Makes (λ calls. Opens plan.now number heard calls result) (L.calls link.old) (L.calls link.new) }
    ensures link_fault { result ≡ Err SessionFault.LinkFault → Rose (L.faults link.old) (L.faults link.new) }
    ensures later { L.faults link.old ≤ L.faults link.new }
    ensures later_open { L.open_faults link.old ≤ L.open_faults link.new }
{
    let reply = open(link, incoming, number, plan.timeout)?;
    if let Some(refused) = refusal_of_open(reply.answer) {
        return Ok(refused);
    }
    choose_client(alloc, link, incoming, plan, number + 1)
}

/// Goes on with the client id that the command has. The next message has this number.
fn choose_client<L: Link>(
    alloc: Global,
    link: &mut L,
    incoming: &mut Incoming<Mbim>,
    plan: &QmiPlan,
    number: u32,
) -> Result<TunnelEnd, SessionFault>
    requires { number ≤ 3 }
    ensures chooses { (heard : Heard) → Stands size_of incoming.old heard → Makes (λ calls. Chooses plan.now number heard calls result) (L.calls link.old) (L.calls link.new) }
    ensures link_fault { result ≡ Err SessionFault.LinkFault → Rose (L.faults link.old) (L.faults link.new) }
    ensures later { L.faults link.old ≤ L.faults link.new }
    ensures later_open { L.open_faults link.old ≤ L.open_faults link.new }
{
    let service = service_of(&plan.request);
    if service == 0 {
        let nobody = Client { id: 0, control: 1 };
        return run_command(alloc, link, incoming, plan, nobody, number);
    }
    if let Some(id) = plan.cid {
        let given = Client { id, control: 1 };
        return run_command(alloc, link, incoming, plan, given, number);
    }
    allocate(alloc, link, incoming, plan, service, number)
}

/// Asks for a client id of the service, and goes on with it.
fn allocate<L: Link>(
    alloc: Global,
    link: &mut L,
    incoming: &mut Incoming<Mbim>,
    plan: &QmiPlan,
    service: u8,
    number: u32,
) -> Result<TunnelEnd, SessionFault>
    requires number { number ≤ 3 }
    ensures allocates { (heard : Heard) → Stands size_of incoming.old heard → Makes (λ calls. Allocates plan.now service number heard calls result) (L.calls link.old) (L.calls link.new) }
    ensures link_fault { result ≡ Err SessionFault.LinkFault → Rose (L.faults link.old) (L.faults link.new) }
    ensures later { L.faults link.old ≤ L.faults link.new }
    ensures later_open { L.open_faults link.old ≤ L.open_faults link.new }
{
    let body = QmiRequest::Allocate(service);
    let request = CarriedRequest {
        body: &body,
        cid: 0,
        number: 1,
    };
    let reply = carry(alloc, link, incoming, request, number, plan.timeout);
    drop(body);
    let reply = reply?;
    match reply.answer {
        Carried::Message(message) => {
            take_client(alloc, link, incoming, plan, service, &message, number + 1)
        }
        Carried::Refused(end) => Ok(end),
    }
}

/// Goes on with the client id that this answer allocates.
fn take_client<L: Link>(
    alloc: Global,
    link: &mut L,
    incoming: &mut Incoming<Mbim>,
    plan: &QmiPlan,
    service: u8,
    message: &Message,
    number: u32,
) -> Result<TunnelEnd, SessionFault>
    requires number { number ≤ 4 }
    requires whole { IsMessage qmux.size_of message.now.bytes }
    ensures takes { (heard : Heard) → Stands size_of incoming.old heard → Makes (λ calls. TakesClient plan.now service (record { place = message.now.place; bytes = message.now.bytes }) number heard calls result) (L.calls link.old) (L.calls link.new) }
    ensures link_fault { result ≡ Err SessionFault.LinkFault → Rose (L.faults link.old) (L.faults link.new) }
    ensures later { L.faults link.old ≤ L.faults link.new }
    ensures later_open { L.open_faults link.old ≤ L.open_faults link.new }
{
    let body = QmiRequest::Allocate(service);
    let answer = read_message(alloc, &body, message);
    drop(body);
    let answer = answer?;
    let error = failure(&answer);
    drop(answer);
    if let Some(error) = error {
        let end = TunnelEnd::Qmi(failed(error));
        return close_with(link, incoming, number, plan.timeout, end);
    }
    let id = allocated(tlvs_in(message.bytes.as_slice()));
    let taken = Client { id, control: 2 };
    run_command(alloc, link, incoming, plan, taken, number)
}

/// Sends the command of this client.
fn run_command<L: Link>(
    alloc: Global,
    link: &mut L,
    incoming: &mut Incoming<Mbim>,
    plan: &QmiPlan,
    client: Client,
    number: u32,
) -> Result<TunnelEnd, SessionFault>
    requires { number ≤ 4 }
    ensures commands { (heard : Heard) → Stands size_of incoming.old heard → Makes (λ calls. Commands plan.now client.id client.control number heard calls result) (L.calls link.old) (L.calls link.new) }
    ensures link_fault { result ≡ Err SessionFault.LinkFault → Rose (L.faults link.old) (L.faults link.new) }
    ensures later { L.faults link.old ≤ L.faults link.new }
    ensures later_open { L.open_faults link.old ≤ L.open_faults link.new }
{
    let body = &plan.request;
    let request = CarriedRequest {
        body,
        cid: client.id,
        number: command_number(body, client.control),
    };
    let reply = carry(alloc, link, incoming, request, number, plan.timeout)?;
    match reply.answer {
        Carried::Message(message) => {
            read_command(alloc, link, incoming, plan, client, &message, number + 1)
        }
        Carried::Refused(end) => Ok(end),
    }
}

/// What a whole message says to a request.
fn read_message(
    alloc: Global,
    body: &QmiRequest,
    message: &Message,
) -> Result<QmiAnswer, SessionFault>
    requires { IsMessage qmux.size_of message.now.bytes }
    ensures { Reads body.now (record { place = message.now.place; bytes = message.now.bytes }) result }
{
    read(alloc, body, message.place, message.bytes.as_slice())
}

/// Reads the answer to the command, and goes on whatever it says.
fn read_command<L: Link>(
    alloc: Global,
    link: &mut L,
    incoming: &mut Incoming<Mbim>,
    plan: &QmiPlan,
    client: Client,
    message: &Message,
    number: u32,
) -> Result<TunnelEnd, SessionFault>
    requires number { number ≤ 5 }
    requires whole { IsMessage qmux.size_of message.now.bytes }
    ensures reads { (heard : Heard) → Stands size_of incoming.old heard → Makes (λ calls. ReadsCommand plan.now client.id client.control (record { place = message.now.place; bytes = message.now.bytes }) number heard calls result) (L.calls link.old) (L.calls link.new) }
    ensures link_fault { result ≡ Err SessionFault.LinkFault → Rose (L.faults link.old) (L.faults link.new) }
    ensures later { L.faults link.old ≤ L.faults link.new }
    ensures later_open { L.open_faults link.old ≤ L.open_faults link.new }
{
    let answer = read_message(alloc, &plan.request, message)?;
    finish(alloc, link, incoming, plan, client, number, answer)
}

/// Gives the client id back behind the answer, where it isn't kept, and closes the modem.
fn finish<L: Link>(
    alloc: Global,
    link: &mut L,
    incoming: &mut Incoming<Mbim>,
    plan: &QmiPlan,
    client: Client,
    number: u32,
    answer: QmiAnswer,
) -> Result<TunnelEnd, SessionFault>
    requires { number ≤ 5 }
    ensures finishes { (heard : Heard) → Stands size_of incoming.old heard → Makes (λ calls. Finishes plan.now client.id client.control number answer heard calls result) (L.calls link.old) (L.calls link.new) }
    ensures link_fault { result ≡ Err SessionFault.LinkFault → Rose (L.faults link.old) (L.faults link.new) }
    ensures later { L.faults link.old ≤ L.faults link.new }
    ensures later_open { L.open_faults link.old ≤ L.open_faults link.new }
{
    let service = service_of(&plan.request);
    if service == 0 {
        return close_with(link, incoming, number, plan.timeout, ended(answer, None));
    }
    if plan.keep {
        let kept = Some((service, client.id));
        return close_with(link, incoming, number, plan.timeout, ended(answer, kept));
    }
    release(alloc, link, incoming, plan, client, number, answer)
}

/// Gives a client id back, and closes the modem. What the answer says isn't read.
fn release<L: Link>(
    alloc: Global,
    link: &mut L,
    incoming: &mut Incoming<Mbim>,
    plan: &QmiPlan,
    client: Client,
    number: u32,
    answer: QmiAnswer,
) -> Result<TunnelEnd, SessionFault>
    requires { number ≤ 5 }
    ensures releases { (heard : Heard) → Stands size_of incoming.old heard → Makes (λ calls. Releases plan.now client.id client.control number answer heard calls result) (L.calls link.old) (L.calls link.new) }
    ensures link_fault { result ≡ Err SessionFault.LinkFault → Rose (L.faults link.old) (L.faults link.new) }
    ensures later { L.faults link.old ≤ L.faults link.new }
    ensures later_open { L.open_faults link.old ≤ L.open_faults link.new }
{
    let body = QmiRequest::Release(service_of(&plan.request), client.id);
    let request = CarriedRequest {
        body: &body,
        cid: 0,
        number: client.control,
    };
    let reply = carry(alloc, link, incoming, request, number, plan.timeout);
    drop(body);
    let reply = match reply {
        Ok(reply) => reply,
        Err(fault) => {
            drop(answer);
            return Err(fault);
        }
    };
    match reply.answer {
        Carried::Message(_) => {
            close_with(
                link,
                incoming,
                number + 1,
                plan.timeout,
                ended(answer, None),
            )
        }
        Carried::Refused(end) => {
            drop(answer);
            Ok(end)
        }
    }
}

/// The end with this answer, where this service and client id are kept, if any are.
fn ended(answer: QmiAnswer, kept: Option<(u8, u8)>) -> TunnelEnd
    ensures { result ≡ end_with answer kept }
{
    TunnelEnd::Qmi(QmiEnd { answer, kept })
}

/// Closes the modem, and ends so.
fn close_with<L: Link>(
    link: &mut L,
    incoming: &mut Incoming<Mbim>,
    number: u32,
    timeout: u16,
    end: TunnelEnd,
) -> Result<TunnelEnd, SessionFault>
    ensures closes { (heard : Heard) → Stands size_of incoming.old heard → Makes (λ calls. Closes end number timeout heard calls result) (L.calls link.old) (L.calls link.new) }
    ensures link_fault { result ≡ Err SessionFault.LinkFault → Rose (L.faults link.old) (L.faults link.new) }
    ensures later { L.faults link.old ≤ L.faults link.new }
    ensures later_open { L.open_faults link.old ≤ L.open_faults link.new }
{
    close(link, incoming, number, timeout)?;
    Ok(end)
}
