ghost use Rattle.std.specs.Prelude.{◌≡◌, ◌≤◌, [], None, Err, IfOk};
ghost use Rattle.kit_io.specs.Causes.{Rose};
ghost use Rattle.mbim_frame.specs.Frame.{size_of};
ghost use Rattle.link_session.specs.Waiting.{Heard, waiting};
ghost use Rattle.link_session.specs.Hearing.{RepliesTo, Stands};
ghost use Rattle.mbim_session.specs.Requests.{judge_command};
ghost use Rattle.mbim_session.specs.Hearing.{HasPieces};
ghost use Rattle.device_core.specs.Requests.{wanted_by};
ghost use Rattle.tunnel_session.specs.Requests.{carrying, request_of};
ghost use Rattle.tunnel_session.specs.Carried.{IsWhole, Reads};

use crate::carried::{Carried, read};
use crate::message::carried_message;
use crate::request::CarriedRequest;
use device_core::{Wanted, request_message};
use link_io::Link;
use link_session::{Incoming, Reply, SessionFault, exchange};
use mbim_frame::Mbim;
use mbim_session::CommandAnswer;
use qmi_services::service_of;
use std::alloc::Global;

/// Sends a request in the command with this number, and waits for its answer for so many seconds.
pub(crate) fn carry<L: Link>(
    alloc: Global,
    link: &mut L,
    incoming: &mut Incoming<Mbim>,
    request: CarriedRequest<'_>,
    command: u32,
    timeout: u16,
) -> Result<Reply<Carried>, SessionFault>
    ensures asks { (heard : Heard) → Stands size_of incoming.old heard
        → RepliesTo (carrying (request_of request.entry) command timeout) (Reads (wanted_by (request_of request.entry)) command) heard result incoming.new (L.calls link.old) (L.calls link.new) }
    ensures whole { IfOk result (λ reply. IsWhole reply.answer) }
    ensures link_fault { result ≡ Err SessionFault.LinkFault → Rose (L.faults link.old) (L.faults link.new) }
    ensures later { L.faults link.old ≤ L.faults link.new }
    ensures later_open { L.open_faults link.old ≤ L.open_faults link.new }
{
    let message = request_message(alloc, request.body, request.cid, request.number)?;
    let messages = carried_message(alloc, message.as_slice(), command)?;
    let mut coming = CommandAnswer::open(alloc, command)?;
    let wanted = Wanted {
        service: service_of(request.body),
        cid: request.cid,
        number: request.number,
    };
    hear(
        alloc,
        link,
        incoming,
        wanted,
        messages.as_slice(),
        &mut coming,
        timeout,
    )
}

// Sends the messages of a command, and reads the answer as it comes in, of which nothing has come.
fn hear<L: Link>(
    alloc: Global,
    link: &mut L,
    incoming: &mut Incoming<Mbim>,
    wanted: Wanted,
    messages: &[u8],
    coming: &mut CommandAnswer,
    timeout: u16,
) -> Result<Reply<Carried>, SessionFault>
    requires { HasPieces coming.old [] }
    ensures asks { (heard : Heard) → Stands size_of incoming.old heard
        → RepliesTo (record { size = size_of; text = messages.now; wait = waiting (judge_command coming.old.number) timeout }) (Reads wanted coming.old.number) heard result incoming.new (L.calls link.old) (L.calls link.new) }
    ensures whole { IfOk result (λ reply. IsWhole reply.answer) }
    ensures link_fault { result ≡ Err SessionFault.LinkFault → Rose (L.faults link.old) (L.faults link.new) }
    ensures later { L.faults link.old ≤ L.faults link.new }
    ensures later_open { L.open_faults link.old ≤ L.open_faults link.new }
{
    let found = exchange(link, incoming, messages, coming, timeout)?;
    let carried = read(alloc, wanted, coming, found.place, incoming.bytes(found))?;
    Ok(Reply {
        found,
        answer: carried,
    })
}
