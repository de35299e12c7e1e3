ghost use Rattle.std.specs.Prelude.{◌≡◌, ◌≤◌, Ok, Err, IfOk};
ghost use Rattle.kit_io.specs.Causes.{Rose};
ghost use Rattle.qmux_frame.specs.Frame.{size_of};
ghost use Rattle.device_core.specs.Requests.{Request, asked};
ghost use Rattle.link_session.specs.Waiting.{Heard};
ghost use Rattle.device_core.specs.Session.{Reads};
ghost use Rattle.link_session.specs.Hearing.{AsksFor, IsGiven, Stands, placed_in};
ghost use Rattle.device_core.specs.Hearing.{KeepsNothing, RepliesTo};

use crate::answer::read;
use crate::message::request_message;
use crate::wanted::Wanted;
use link_io::Link;
use link_session::{Found, Incoming, Reply, SessionFault};
use qmi_requests::QmiRequest;
use qmi_services::{QmiAnswer, service_of};
use qmux_frame::Qmux;
use std::alloc::Global;

/// Sends a request with this client id and this number, and waits for its answer, for so many
/// seconds.
pub fn exchange<L: Link>(
    alloc: Global,
    link: &mut L,
    incoming: &mut Incoming<Qmux>,
    body: &QmiRequest,
    cid: u8,
    number: u8,
    timeout: u16,
) -> Result<Found, SessionFault>
    ensures asks { (heard : Heard) → Stands size_of incoming.old heard
        → AsksFor (asked timeout (record { body = body.now; cid = cid; number = number })) KeepsNothing heard result incoming.new (L.calls link.old) (L.calls link.new) }
    ensures given { IfOk result (IsGiven size_of incoming.new) }
    ensures link_fault { result ≡ Err SessionFault.LinkFault → Rose (L.faults link.old) (L.faults link.new) }
    ensures later { L.faults link.old ≤ L.faults link.new }
    ensures later_open { L.open_faults link.old ≤ L.open_faults link.new }
{
    let message = request_message(alloc, body, cid, number)?;
    let mut wanted = Wanted {
        service: service_of(body),
        cid,
        number,
    };
    link_session::exchange(link, incoming, message.as_slice(), &mut wanted, timeout)
}

/// Sends a request with this client id and this number, and reads its answer, which is waited for
/// for so many seconds.
pub fn ask<L: Link>(
    alloc: Global,
    link: &mut L,
    incoming: &mut Incoming<Qmux>,
    body: &QmiRequest,
    cid: u8,
    number: u8,
    timeout: u16,
) -> Result<Reply<QmiAnswer>, SessionFault>
    ensures asks { (heard : Heard) → Stands size_of incoming.old heard
        → RepliesTo timeout (record { body = body.now; cid = cid; number = number }) heard result incoming.new (L.calls link.old) (L.calls link.new) }
    ensures given { IfOk result (λ reply. IsGiven size_of incoming.new reply.found × Reads body.now (placed_in incoming.new reply.found) (Ok reply.answer)) }
    ensures link_fault { result ≡ Err SessionFault.LinkFault → Rose (L.faults link.old) (L.faults link.new) }
    ensures later { L.faults link.old ≤ L.faults link.new }
    ensures later_open { L.open_faults link.old ≤ L.open_faults link.new }
{
    let found = exchange(alloc, link, incoming, body, cid, number, timeout)?;
    let answer = read(alloc, body, found.place, incoming.bytes(found))?;
    Ok(Reply { found, answer })
}
