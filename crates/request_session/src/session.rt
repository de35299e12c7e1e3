ghost use Rattle.std.specs.Prelude.{◌≡◌, ◌≤◌, Err, IsSome, length};
ghost use Rattle.kit_io.specs.Causes.{Rose};
ghost use Rattle.qmux_frame.specs.Frame.{size_of};
ghost use Rattle.qmux_frame.specs.Head.{tlvs_in};
ghost use Rattle.link_session.specs.Asking.{Makes};
ghost use Rattle.link_session.specs.Waiting.{Heard};
ghost use Rattle.link_session.specs.Hearing.{IsGiven, Stands, found_in};
ghost use Rattle.device_core.specs.Session.{allocated_in};
ghost use Rattle.session_script.specs.Hearing.{Goes};
ghost use Rattle.session_script.specs.Script.{Performs};
ghost use Rattle.request_session.specs.Session as spec;

use crate::answer::read_answer;
use crate::client::{Access, Client};
use crate::control::{ask_control, release};
use crate::ends::{RequestEnd, TlvAnswer};
use crate::plan::RequestPlan;
use device_core::{allocated, failure};
use link_io::Link;
use link_session::{Found, Incoming, SessionFault, exchange};
use qmi_requests::QmiRequest;
use qmux_frame::{Head, LONGEST_TLVS, Qmux, tlvs_in};
use std::alloc::Global;

/// A whole session for a request, over a link that is open.
///
/// Where the plan is proxied, the proxy behind the link is asked for the device first. A request of
/// a service other than 0 then needs a client id: the plan's, or one that is allocated, which is
/// given back behind the answer unless it is kept. A failure before the request ends the session.
#[tactic(auto, unfolding(crate::specs::Session::session))]
pub fn request_session<L: Link>(
    alloc: Global,
    link: &mut L,
    plan: &RequestPlan,
) -> Result<RequestEnd, SessionFault>
    requires { length plan.now.request.tlvs ≤ LONGEST_TLVS }
    ensures session { Makes (λ calls. Performs (spec.session plan.now) calls result) (L.calls link.old) (L.calls link.new) }
    ensures link_fault { result ≡ Err SessionFault.LinkFault → Rose (L.faults link.old) (L.faults link.new) }
    ensures later { L.faults link.old ≤ L.faults link.new }
    ensures later_open { L.open_faults link.old ≤ L.open_faults link.new }
{
    let mut incoming = Incoming::open(alloc)?;
    let access = reach(alloc, link, &mut incoming, plan)?;
    match access {
        Access::Client(client) => ask(alloc, link, &mut incoming, plan, client),
        Access::Refused(error) => Ok(RequestEnd::NotSent(error)),
    }
}

/// Asks the proxy for the device, where the plan is proxied, and takes a client id.
pub fn reach<L: Link>(
    alloc: Global,
    link: &mut L,
    incoming: &mut Incoming<Qmux>,
    plan: &RequestPlan,
) -> Result<Access, SessionFault>
    ensures reaches { (heard : Heard) → Stands size_of incoming.old heard → Goes size_of (spec.reach plan.now) heard result incoming.new (L.calls link.old) (L.calls link.new) }
    ensures link_fault { result ≡ Err SessionFault.LinkFault → Rose (L.faults link.old) (L.faults link.new) }
    ensures later { L.faults link.old ≤ L.faults link.new }
    ensures later_open { L.open_faults link.old ≤ L.open_faults link.new }
{
    if !plan.proxied {
        return take_client(alloc, link, incoming, plan, 1);
    }
    let open = QmiRequest::ProxyOpen(plan.device.copy(alloc)?);
    let reply = ask_control(alloc, link, incoming, open, 1, plan.timeout)?;
    match failure(&reply.answer) {
        Some(error) => Ok(Access::Refused(error)),
        None => take_client(alloc, link, incoming, plan, 2),
    }
}

/// Takes the plan's client id, or asks for one. The next request to service 0 has this number.
fn take_client<L: Link>(
    alloc: Global,
    link: &mut L,
    incoming: &mut Incoming<Qmux>,
    plan: &RequestPlan,
    number: u8,
) -> Result<Access, SessionFault>
    requires { number ≤ 2 }
    ensures takes { (heard : Heard) → Stands size_of incoming.old heard → Goes size_of (spec.take_client plan.now number) heard result incoming.new (L.calls link.old) (L.calls link.new) }
    ensures link_fault { result ≡ Err SessionFault.LinkFault → Rose (L.faults link.old) (L.faults link.new) }
    ensures later { L.faults link.old ≤ L.faults link.new }
    ensures later_open { L.open_faults link.old ≤ L.open_faults link.new }
{
    let service = plan.request.service;
    if service == 0 {
        return Ok(Access::Client(Client {
            id: 0,
            next: number,
        }));
    }
    if let Some(id) = plan.cid {
        return Ok(Access::Client(Client { id, next: number }));
    }
    let body = QmiRequest::Allocate(service);
    let reply = ask_control(alloc, link, incoming, body, number, plan.timeout)?;
    if let Some(error) = failure(&reply.answer) {
        return Ok(Access::Refused(error));
    }
    Ok(allocated_in(incoming, reply.found, number + 1))
}

/// The client id that an answer allocates.
fn allocated_in(incoming: &Incoming<Qmux>, found: Found, next: u8) -> Access
    requires given { IsGiven size_of incoming.now found }
    requires allocates { IsSome (allocated_in (tlvs_in (found_in incoming.now found))) }
    ensures { result ≡ Access.Client (record { id = spec.allocated (found_in incoming.now found); next = next }) }
{
    let id = allocated(tlvs_in(incoming.bytes(found)));
    Access::Client(Client { id, next })
}

/// Sends the request with this client id, and gives that back behind the answer.
fn ask<L: Link>(
    alloc: Global,
    link: &mut L,
    incoming: &mut Incoming<Qmux>,
    plan: &RequestPlan,
    client: Client,
) -> Result<RequestEnd, SessionFault>
    requires { length plan.now.request.tlvs ≤ LONGEST_TLVS }
    ensures asks { (heard : Heard) → Stands size_of incoming.old heard → Goes size_of (spec.ask plan.now client) heard result incoming.new (L.calls link.old) (L.calls link.new) }
    ensures link_fault { result ≡ Err SessionFault.LinkFault → Rose (L.faults link.old) (L.faults link.new) }
    ensures later { L.faults link.old ≤ L.faults link.new }
    ensures later_open { L.open_faults link.old ≤ L.open_faults link.new }
{
    let answer = send_request(alloc, link, incoming, plan, client)?;
    let kept = leave(alloc, link, incoming, plan, client)?;
    Ok(RequestEnd::Answered { answer, kept })
}

/// Sends the request with this client id, and reads its answer.
pub fn send_request<L: Link>(
    alloc: Global,
    link: &mut L,
    incoming: &mut Incoming<Qmux>,
    plan: &RequestPlan,
    client: Client,
) -> Result<TlvAnswer, SessionFault>
    requires { length plan.now.request.tlvs ≤ LONGEST_TLVS }
    ensures requests { (heard : Heard) → Stands size_of incoming.old heard → Goes size_of (spec.request plan.now client) heard result incoming.new (L.calls link.old) (L.calls link.new) }
    ensures link_fault { result ≡ Err SessionFault.LinkFault → Rose (L.faults link.old) (L.faults link.new) }
    ensures later { L.faults link.old ≤ L.faults link.new }
    ensures later_open { L.open_faults link.old ≤ L.open_faults link.new }
{
    let number = number_of(plan, client);
    let message = plan.request.write(alloc, client.id, number)?;
    let mut wanted = plan.request.wanted(client.id, number);
    let found = exchange(
        link,
        incoming,
        message.as_slice(),
        &mut wanted,
        plan.timeout,
    )?;
    let answer = read_answer(alloc, found.place, incoming.bytes(found))?;
    Ok(answer)
}

/// The number of the request: of service 0 the next one, of the others the first.
fn number_of(plan: &RequestPlan, client: Client) -> u8
    ensures { result ≡ spec.number_of plan.now client }
{
    if plan.request.service == 0 {
        client.next
    } else {
        1
    }
}

/// Gives the client id back where it isn't kept, and tells the service and the client id that are kept.
pub fn leave<L: Link>(
    alloc: Global,
    link: &mut L,
    incoming: &mut Incoming<Qmux>,
    plan: &RequestPlan,
    client: Client,
) -> Result<Option<(u8, u8)>, SessionFault>
    ensures leaves { (heard : Heard) → Stands size_of incoming.old heard → Goes size_of (spec.leave plan.now client) heard result incoming.new (L.calls link.old) (L.calls link.new) }
    ensures link_fault { result ≡ Err SessionFault.LinkFault → Rose (L.faults link.old) (L.faults link.new) }
    ensures later { L.faults link.old ≤ L.faults link.new }
    ensures later_open { L.open_faults link.old ≤ L.open_faults link.new }
{
    let service = plan.request.service;
    if service == 0 {
        return Ok(None);
    }
    if plan.keep {
        return Ok(Some((service, client.id)));
    }
    let found = release(alloc, link, incoming, service, client, plan.timeout)?;
    if !Head::read(incoming.bytes(found)).framed {
        return Err(SessionFault::Broken { place: found.place });
    }
    Ok(None)
}
