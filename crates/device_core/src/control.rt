//! The requests to service 0 that a session makes of its own.

ghost use Rattle.std.specs.Prelude.{◌≡◌, ◌≤◌, Ok, Err, IfOk};
ghost use Rattle.kit_io.specs.Causes.{Rose};
ghost use Rattle.qmi_requests.specs.declared.QmiRequest.TheVariants.{Allocate, ProxyOpen, Release};
ghost use Rattle.qmux_frame.specs.Frame.{size_of};
ghost use Rattle.device_core.specs.Requests.{Request, asked};
ghost use Rattle.link_session.specs.Waiting.{Heard};
ghost use Rattle.device_core.specs.Session.{Reads};
ghost use Rattle.link_session.specs.Hearing.{AsksFor, IsGiven, Stands, placed_in};
ghost use Rattle.device_core.specs.Hearing.{KeepsNothing, RepliesTo};

use crate::asking::{ask, exchange};
use kit_bytes::PathText;
use link_io::Link;
use link_session::{Found, Incoming, Reply, SessionFault};
use qmi_requests::QmiRequest;
use qmi_services::QmiAnswer;
use qmux_frame::Qmux;
use std::alloc::Global;

/// Asks the proxy behind the link for the device at this path.
pub(crate) fn open_proxy<L: Link>(
    alloc: Global,
    link: &mut L,
    incoming: &mut Incoming<Qmux>,
    device: &PathText,
    timeout: u16,
) -> Result<Reply<QmiAnswer>, SessionFault>
    ensures asks { (heard : Heard) → Stands size_of incoming.old heard
        → RepliesTo timeout (record { body = ProxyOpen device.now; cid = 0; number = 1 }) heard result incoming.new (L.calls link.old) (L.calls link.new) }
    ensures link_fault { result ≡ Err SessionFault.LinkFault → Rose (L.faults link.old) (L.faults link.new) }
    ensures later { L.faults link.old ≤ L.faults link.new }
    ensures later_open { L.open_faults link.old ≤ L.open_faults link.new }
{
    let body = QmiRequest::ProxyOpen(device.copy(alloc)?);
    let reply = ask(alloc, link, incoming, &body, 0, 1, timeout);
    drop(body);
    reply
}

/// Asks for a client id of a service.
pub(crate) fn allocate<L: Link>(
    alloc: Global,
    link: &mut L,
    incoming: &mut Incoming<Qmux>,
    service: u8,
    number: u8,
    timeout: u16,
) -> Result<Reply<QmiAnswer>, SessionFault>
    ensures asks { (heard : Heard) → Stands size_of incoming.old heard
        → RepliesTo timeout (record { body = Allocate service; cid = 0; number = number }) heard result incoming.new (L.calls link.old) (L.calls link.new) }
    ensures given { IfOk result (λ reply. IsGiven size_of incoming.new reply.found × Reads (Allocate service) (placed_in incoming.new reply.found) (Ok reply.answer)) }
    ensures link_fault { result ≡ Err SessionFault.LinkFault → Rose (L.faults link.old) (L.faults link.new) }
    ensures later { L.faults link.old ≤ L.faults link.new }
    ensures later_open { L.open_faults link.old ≤ L.open_faults link.new }
{
    let body = QmiRequest::Allocate(service);
    let reply = ask(alloc, link, incoming, &body, 0, number, timeout);
    drop(body);
    reply
}

/// Gives a client id of a service back. What the answer says isn't read.
pub(crate) fn release<L: Link>(
    alloc: Global,
    link: &mut L,
    incoming: &mut Incoming<Qmux>,
    service: u8,
    cid: u8,
    number: u8,
    timeout: u16,
) -> Result<Found, SessionFault>
    ensures asks { (heard : Heard) → Stands size_of incoming.old heard
        → AsksFor (asked timeout (record { body = Release service cid; cid = 0; number = number })) KeepsNothing heard result incoming.new (L.calls link.old) (L.calls link.new) }
    ensures given { IfOk result (IsGiven size_of incoming.new) }
    ensures link_fault { result ≡ Err SessionFault.LinkFault → Rose (L.faults link.old) (L.faults link.new) }
    ensures later { L.faults link.old ≤ L.faults link.new }
    ensures later_open { L.open_faults link.old ≤ L.open_faults link.new }
{
    let body = QmiRequest::Release(service, cid);
    let found = exchange(alloc, link, incoming, &body, 0, number, timeout);
    drop(body);
    found
}
