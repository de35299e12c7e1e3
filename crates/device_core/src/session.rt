ghost use Rattle.std.specs.Prelude.{◌≡◌, ◌==◌, ◌≤◌, if◌then◌else◌, Err, IsSome};
ghost use Rattle.kit_io.specs.Causes.{Rose};
ghost use Rattle.qmux_frame.specs.Head.{tlvs_in};
ghost use Rattle.qmi_services.specs.Requests.{row_of};
ghost use Rattle.qmux_frame.specs.Frame.{size_of};
ghost use Rattle.link_session.specs.Asking.{Makes};
ghost use Rattle.device_core.specs.Session.{Chooses, Commands, CommandsAs, Finishes, Session, allocated_in, failed};
ghost use Rattle.link_session.specs.Waiting.{Heard};
ghost use Rattle.link_session.specs.Hearing.{IsGiven, Stands, found_in};
ghost use Rattle.device_core.specs.Hearing.{failure_in};

use crate::answer::allocated;
use crate::asking::ask;
use crate::control::{allocate, open_proxy, release};
use crate::plan::QmiPlan;
use link_io::Link;
use link_session::{Found, Incoming, SessionFault};
use qmi_requests::QmiRequest;
use qmi_services::{QmiAnswer, QmiEnd, service_of};
use qmux_frame::{Head, Qmux, tlvs_in};
use std::alloc::Global;

/// A whole session with a QMI modem, over a link that is open.
///
/// Where the plan is proxied, the proxy behind the link is asked for the device first. A command of
/// a service other than 0 then needs a client id: the plan's, or one that is allocated, which is
/// given back behind the answer unless it is kept. A failure before the command ends the session as
/// its answer.
pub fn qmi_session<L: Link>(
    alloc: Global,
    link: &mut L,
    plan: &QmiPlan,
) -> Result<QmiEnd, SessionFault>
    ensures session { Makes (λ calls. Session plan.now calls result) (L.calls link.old) (L.calls link.new) }
    ensures link_fault { result ≡ Err SessionFault.LinkFault → Rose (L.faults link.old) (L.faults link.new) }
    ensures later { L.faults link.old ≤ L.faults link.new }
    ensures later_open { L.open_faults link.old ≤ L.open_faults link.new }
{
    let mut incoming = Incoming::open(alloc)?;
    if !plan.proxied {
        return choose_cid(alloc, link, &mut incoming, plan, 1);
    }
    match open_proxy(alloc, link, &mut incoming, &plan.device, plan.timeout)?.answer {
        QmiAnswer::Failure(error) => Ok(failed(error)),
        QmiAnswer::Success(_) => choose_cid(alloc, link, &mut incoming, plan, 2),
    }
}

/// The error, where an answer is a failure.
pub fn failure(answer: &QmiAnswer) -> Option<u16>
    ensures { result ≡ failure_in answer.now }
{
    match answer {
        QmiAnswer::Failure(error) => Some(*error),
        QmiAnswer::Success(_) => None,
    }
}

/// The end of a session whose command wasn't sent.
pub fn failed(error: u16) -> QmiEnd
    ensures { result ≡ failed error }
{
    QmiEnd {
        answer: QmiAnswer::Failure(error),
        kept: None,
    }
}

/// Goes on once the link leads to the modem: with the client id that the command has. The next
/// request to service 0 has this number.
fn choose_cid<L: Link>(
    alloc: Global,
    link: &mut L,
    incoming: &mut Incoming<Qmux>,
    plan: &QmiPlan,
    number: u8,
) -> Result<QmiEnd, SessionFault>
    requires { number ≤ 2 }
    ensures chooses { (heard : Heard) → Stands size_of incoming.old heard → Makes (λ calls. Chooses plan.now number heard calls result) (L.calls link.old) (L.calls link.new) }
    ensures link_fault { result ≡ Err SessionFault.LinkFault → Rose (L.faults link.old) (L.faults link.new) }
    ensures later { L.faults link.old ≤ L.faults link.new }
    ensures later_open { L.open_faults link.old ≤ L.open_faults link.new }
{
    let service = service_of(&plan.request);
    if service == 0 {
        return run_command(alloc, link, incoming, plan, 0, number);
    }
    if let Some(cid) = plan.cid {
        return run_command(alloc, link, incoming, plan, cid, number);
    }
    let reply = allocate(alloc, link, incoming, service, number, plan.timeout)?;
    if let Some(error) = failure(&reply.answer) {
        return Ok(failed(error));
    }
    run_allocated(alloc, link, incoming, plan, reply.found, number + 1)
}

/// Sends the command, with the client id that this answer allocates.
fn run_allocated<L: Link>(
    alloc: Global,
    link: &mut L,
    incoming: &mut Incoming<Qmux>,
    plan: &QmiPlan,
    found: Found,
    number: u8,
) -> Result<QmiEnd, SessionFault>
    requires given { IsGiven size_of incoming.old found }
    requires allocates { IsSome (allocated_in (tlvs_in (found_in incoming.old found))) }
    ensures commands { (heard : Heard) → Stands size_of incoming.old heard
        → Makes (λ calls. CommandsAs plan.now (found_in incoming.old found) number heard calls result) (L.calls link.old) (L.calls link.new) }
    ensures link_fault { result ≡ Err SessionFault.LinkFault → Rose (L.faults link.old) (L.faults link.new) }
    ensures later { L.faults link.old ≤ L.faults link.new }
    ensures later_open { L.open_faults link.old ≤ L.open_faults link.new }
{
    let cid = allocated(tlvs_in(incoming.bytes(found)));
    run_command(alloc, link, incoming, plan, cid, number)
}

/// Sends the command, with this client id.
fn run_command<L: Link>(
    alloc: Global,
    link: &mut L,
    incoming: &mut Incoming<Qmux>,
    plan: &QmiPlan,
    cid: u8,
    number: u8,
) -> Result<QmiEnd, SessionFault>
    ensures commands { (heard : Heard) → Stands size_of incoming.old heard → Makes (λ calls. Commands plan.now cid number heard calls result) (L.calls link.old) (L.calls link.new) }
    ensures link_fault { result ≡ Err SessionFault.LinkFault → Rose (L.faults link.old) (L.faults link.new) }
    ensures later { L.faults link.old ≤ L.faults link.new }
    ensures later_open { L.open_faults link.old ≤ L.open_faults link.new }
{
    let body = &plan.request;
    let reply = ask(
        alloc,
        link,
        incoming,
        body,
        cid,
        command_number(body, number),
        plan.timeout,
    )?;
    finish(alloc, link, incoming, plan, cid, number, reply.answer)
}

/// The number of a command: of service 0 the next one, of the others the first.
pub fn command_number(body: &QmiRequest, next: u8) -> u8
    ensures { result ≡ (if (row_of body.now).service == 0 then next else 1) }
{
    if service_of(body) == 0 { next } else { 1 }
}

/// Gives the client id back behind the answer, where it isn't kept.
fn finish<L: Link>(
    alloc: Global,
    link: &mut L,
    incoming: &mut Incoming<Qmux>,
    plan: &QmiPlan,
    cid: u8,
    number: u8,
    answer: QmiAnswer,
) -> Result<QmiEnd, SessionFault>
    ensures finishes { (heard : Heard) → Stands size_of incoming.old heard → Makes (λ calls. Finishes plan.now cid number answer heard calls result) (L.calls link.old) (L.calls link.new) }
    ensures link_fault { result ≡ Err SessionFault.LinkFault → Rose (L.faults link.old) (L.faults link.new) }
    ensures later { L.faults link.old ≤ L.faults link.new }
    ensures later_open { L.open_faults link.old ≤ L.open_faults link.new }
{
    let service = service_of(&plan.request);
    if service == 0 {
        return Ok(QmiEnd { answer, kept: None });
    }
    if plan.keep {
        let kept = Some((service, cid));
        return Ok(QmiEnd { answer, kept });
    }
    let found = release(alloc, link, incoming, service, cid, number, plan.timeout)?;
    if !Head::read(incoming.bytes(found)).framed {
        return Err(SessionFault::Broken { place: found.place });
    }
    Ok(QmiEnd { answer, kept: None })
}
