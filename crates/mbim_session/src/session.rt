ghost use Rattle.std.specs.Prelude.{◌≡◌, ◌≤◌, Err};
ghost use Rattle.kit_io.specs.Causes.{Rose};
ghost use Rattle.mbim_frame.specs.Frame.{size_of};
ghost use Rattle.link_session.specs.Asking.{Makes};
ghost use Rattle.link_session.specs.Waiting.{Heard, nothing_heard};
ghost use Rattle.link_session.specs.Hearing.{RepliesTo, Stands};
ghost use Rattle.mbim_requests.specs.declared.MbimRequest.TheVariants.{ProxyConfiguration};
ghost use Rattle.mbim_session.specs.Requests.{commanding};
ghost use Rattle.mbim_session.specs.Answers.{Reads};
ghost use Rattle.mbim_session.specs.Session.{Closes, Commands, Opens, Session};

use crate::asking::{ask, close};
use crate::opening::open;
use crate::plan::{MbimEnd, MbimPlan};
use kit_bytes::PathText;
use link_io::Link;
use link_session::{Incoming, Reply, SessionFault};
use mbim_frame::Mbim;
use mbim_requests::MbimRequest;
use std::alloc::Global;

/// A whole session with an MBIM modem, over a link that is open.
///
/// Where the plan is proxied, the proxy behind the link is asked for the device first. Then the modem
/// is opened, gets the command, and is closed where the plan says so, whatever the command came to. A
/// failure or a FUNCTION_ERROR before the command ends the session as its answer.
pub fn mbim_session<L: Link>(
    alloc: Global,
    link: &mut L,
    plan: &MbimPlan,
) -> Result<MbimEnd, SessionFault>
    ensures session { Makes (λ calls. Session plan.now calls result) (L.calls link.old) (L.calls link.new) }
    ensures link_fault { result ≡ Err SessionFault.LinkFault → Rose (L.faults link.old) (L.faults link.new) }
    ensures later { L.faults link.old ≤ L.faults link.new }
    ensures later_open { L.open_faults link.old ≤ L.open_faults link.new }
{
    let mut incoming = Incoming::open(alloc)?;
    ask_all(alloc, link, &mut incoming, plan)
}

/// All that a plan asks, where nothing has come yet.
fn ask_all<L: Link>(
    alloc: Global,
    link: &mut L,
    incoming: &mut Incoming<Mbim>,
    plan: &MbimPlan,
) -> Result<MbimEnd, SessionFault>
    ensures session { Stands size_of incoming.old nothing_heard → Makes (λ calls. Session plan.now calls result) (L.calls link.old) (L.calls link.new) }
    ensures link_fault { result ≡ Err SessionFault.LinkFault → Rose (L.faults link.old) (L.faults link.new) }
    ensures later { L.faults link.old ≤ L.faults link.new }
    ensures later_open { L.open_faults link.old ≤ L.open_faults link.new }
{
    if !plan.proxied {
        return open_modem(alloc, link, incoming, plan, 1);
    }
    let reply = configure(alloc, link, incoming, &plan.device, plan.timeout)?;
    if let Some(refusal) = reply.answer.refusal() {
        return Ok(refusal);
    }
    open_modem(alloc, link, incoming, plan, 2)
}

/// Asks the proxy behind the link for the device of this path.
pub fn configure<L: Link>(
    alloc: Global,
    link: &mut L,
    incoming: &mut Incoming<Mbim>,
    device: &PathText,
    timeout: u16,
) -> Result<Reply<MbimEnd>, SessionFault>
    ensures asks { (heard : Heard) → Stands size_of incoming.old heard
        → RepliesTo (commanding (ProxyConfiguration device.now) 1 timeout) (Reads (ProxyConfiguration device.now) 1) heard result incoming.new (L.calls link.old) (L.calls link.new) }
    ensures link_fault { result ≡ Err SessionFault.LinkFault → Rose (L.faults link.old) (L.faults link.new) }
    ensures later { L.faults link.old ≤ L.faults link.new }
    ensures later_open { L.open_faults link.old ≤ L.open_faults link.new }
{
    let configuration = MbimRequest::ProxyConfiguration(device.copy(alloc)?);
    let reply = ask(alloc, link, incoming, &configuration, 1, timeout);
    drop(configuration);
    reply
}

/// Goes on once the link leads to the modem: opens it. The next request has this number.
fn open_modem<L: Link>(
    alloc: Global,
    link: &mut L,
    incoming: &mut Incoming<Mbim>,
    plan: &MbimPlan,
    number: u32,
) -> Result<MbimEnd, SessionFault>
    requires { number ≤ 2 }
    ensures opens { (heard : Heard) → Stands size_of incoming.old heard → Makes (λ calls. Opens plan.now number heard calls result) (L.calls link.old) (L.calls link.new) }
    ensures link_fault { result ≡ Err SessionFault.LinkFault → Rose (L.faults link.old) (L.faults link.new) }
    ensures later { L.faults link.old ≤ L.faults link.new }
    ensures later_open { L.open_faults link.old ≤ L.open_faults link.new }
{
    let reply = open(link, incoming, number, plan.timeout)?;
    if let Some(refusal) = reply.answer {
        return Ok(refusal);
    }
    run_command(alloc, link, incoming, plan, number + 1)
}

/// Sends the command under this number.
fn run_command<L: Link>(
    alloc: Global,
    link: &mut L,
    incoming: &mut Incoming<Mbim>,
    plan: &MbimPlan,
    number: u32,
) -> Result<MbimEnd, SessionFault>
    requires { number ≤ 3 }
    ensures commands { (heard : Heard) → Stands size_of incoming.old heard → Makes (λ calls. Commands plan.now number heard calls result) (L.calls link.old) (L.calls link.new) }
    ensures link_fault { result ≡ Err SessionFault.LinkFault → Rose (L.faults link.old) (L.faults link.new) }
    ensures later { L.faults link.old ≤ L.faults link.new }
    ensures later_open { L.open_faults link.old ≤ L.open_faults link.new }
{
    let reply = ask(alloc, link, incoming, &plan.request, number, plan.timeout)?;
    finish(link, incoming, plan, number + 1, reply.answer)
}

/// Closes the modem behind the answer, where it is to be closed.
fn finish<L: Link>(
    link: &mut L,
    incoming: &mut Incoming<Mbim>,
    plan: &MbimPlan,
    number: u32,
    end: MbimEnd,
) -> Result<MbimEnd, SessionFault>
    ensures closes { (heard : Heard) → Stands size_of incoming.old heard → Makes (λ calls. Closes plan.now number end heard calls result) (L.calls link.old) (L.calls link.new) }
    ensures link_fault { result ≡ Err SessionFault.LinkFault → Rose (L.faults link.old) (L.faults link.new) }
    ensures later { L.faults link.old ≤ L.faults link.new }
    ensures later_open { L.open_faults link.old ≤ L.open_faults link.new }
{
    if !plan.close {
        return Ok(end);
    }
    close(link, incoming, number, plan.timeout)?;
    Ok(end)
}
