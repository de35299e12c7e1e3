ghost use Rattle.std.specs.Prelude.{◌≡◌, ◌≤◌, [], Err, IfOk};
ghost use Rattle.kit_io.specs.Causes.{Rose};
ghost use Rattle.mbim_frame.specs.Frame.{size_of};
ghost use Rattle.link_session.specs.Waiting.{Heard, waiting};
ghost use Rattle.link_session.specs.Hearing.{AsksFor, RepliesTo, Stands};
ghost use Rattle.mbim_session.specs.Requests.{closing, commanding, judge_command};
ghost use Rattle.mbim_session.specs.Answers.{Reads};
ghost use Rattle.mbim_session.specs.Hearing.{HasPieces, KeepsNothing};

use crate::command_answer::CommandAnswer;
use crate::message::command_message;
use crate::plan::MbimEnd;
use crate::wanted::Wanted;
use link_io::Link;
use link_session::{Found, Incoming, Reply, SessionFault, exchange};
use mbim_frame::{Mbim, MessageKind, close_request};
use mbim_requests::MbimRequest;
use std::alloc::Global;

/// Sends the command of a request under this number, and reads its answer, which is waited for for
/// so many seconds.
pub(crate) fn ask<L: Link>(
    alloc: Global,
    link: &mut L,
    incoming: &mut Incoming<Mbim>,
    request: &MbimRequest,
    number: u32,
    timeout: u16,
) -> Result<Reply<MbimEnd>, SessionFault>
    ensures asks { (heard : Heard) → Stands size_of incoming.old heard
        → RepliesTo (commanding request.now number timeout) (Reads request.now number) heard result incoming.new (L.calls link.old) (L.calls link.new) }
    ensures link_fault { result ≡ Err SessionFault.LinkFault → Rose (L.faults link.old) (L.faults link.new) }
    ensures later { L.faults link.old ≤ L.faults link.new }
    ensures later_open { L.open_faults link.old ≤ L.open_faults link.new }
{
    let messages = command_message(alloc, request, number)?;
    let mut coming = CommandAnswer::open(alloc, number)?;
    let messages = messages.as_slice();
    hear(
        alloc,
        link,
        incoming,
        request,
        messages,
        &mut coming,
        timeout,
    )
}

// Sends the messages of a request, and reads the answer as it comes in, of which nothing has come.
fn hear<L: Link>(
    alloc: Global,
    link: &mut L,
    incoming: &mut Incoming<Mbim>,
    request: &MbimRequest,
    messages: &[u8],
    coming: &mut CommandAnswer,
    timeout: u16,
) -> Result<Reply<MbimEnd>, SessionFault>
    requires { HasPieces coming.old [] }
    ensures asks { (heard : Heard) → Stands size_of incoming.old heard
        → RepliesTo (record { size = size_of; text = messages.now; wait = waiting (judge_command coming.old.number) timeout }) (Reads request.now coming.old.number) heard result incoming.new (L.calls link.old) (L.calls link.new) }
    ensures link_fault { result ≡ Err SessionFault.LinkFault → Rose (L.faults link.old) (L.faults link.new) }
    ensures later { L.faults link.old ≤ L.faults link.new }
    ensures later_open { L.open_faults link.old ≤ L.open_faults link.new }
{
    let found = exchange(link, incoming, messages, coming, timeout)?;
    let answer = coming.read(alloc, request, found.place, incoming.bytes(found))?;
    Ok(Reply { found, answer })
}

/// Closes the modem. What the answer says isn't read.
pub fn close<L: Link>(
    link: &mut L,
    incoming: &mut Incoming<Mbim>,
    number: u32,
    timeout: u16,
) -> Result<Found, SessionFault>
    ensures asks { (heard : Heard) → Stands size_of incoming.old heard
        → AsksFor (closing number timeout) KeepsNothing heard result incoming.new (L.calls link.old) (L.calls link.new) }
    ensures link_fault { result ≡ Err SessionFault.LinkFault → Rose (L.faults link.old) (L.faults link.new) }
    ensures later { L.faults link.old ≤ L.faults link.new }
    ensures later_open { L.open_faults link.old ≤ L.open_faults link.new }
{
    let mut wanted = Wanted {
        done: MessageKind::CloseDone,
        number,
    };
    exchange(link, incoming, &close_request(number), &mut wanted, timeout)
}
