ghost use Rattle.std.specs.Prelude.{◌≡◌, ◌≤◌, Err, length};
ghost use Rattle.kit_io.specs.Causes.{Rose};
ghost use Rattle.mbim_frame.specs.Frame.{size_of};
ghost use Rattle.link_session.specs.Waiting.{Heard};
ghost use Rattle.link_session.specs.Hearing.{RepliesTo, Stands};
ghost use Rattle.mbim_session.specs.Requests.{opening};
ghost use Rattle.mbim_session.specs.Answers.{ReadsOpening};

use crate::message::LONGEST_SENT;
use crate::plan::MbimEnd;
use crate::wanted::{Wanted, is_of};
use kit_bytes::u32_at;
use link_io::Link;
use link_session::{Incoming, Reply, SessionFault, exchange};
use mbim_frame::{Mbim, MessageKind, open_request};
use mbim_services::MbimAnswer;

/// Opens the modem, and tells how it refuses, if it does. The answer is waited for for so many
/// seconds.
pub fn open<L: Link>(
    link: &mut L,
    incoming: &mut Incoming<Mbim>,
    number: u32,
    timeout: u16,
) -> Result<Reply<Option<MbimEnd>>, SessionFault>
    ensures asks { (heard : Heard) → Stands size_of incoming.old heard
        → RepliesTo (opening number timeout) (λ before. ReadsOpening number) heard result incoming.new (L.calls link.old) (L.calls link.new) }
    ensures link_fault { result ≡ Err SessionFault.LinkFault → Rose (L.faults link.old) (L.faults link.new) }
    ensures later { L.faults link.old ≤ L.faults link.new }
    ensures later_open { L.open_faults link.old ≤ L.open_faults link.new }
{
    let mut wanted = Wanted {
        done: MessageKind::OpenDone,
        number,
    };
    let request = open_request(number, LONGEST_SENT);
    let found = exchange(link, incoming, &request, &mut wanted, timeout)?;
    let answer = read(number, found.place, incoming.bytes(found))?;
    Ok(Reply { found, answer })
}

// What an answer says that begins at this place.
fn read(number: u32, place: u64, message: &[u8]) -> Result<Option<MbimEnd>, SessionFault>
    ensures { ReadsOpening number (record { place = place; bytes = message.now }) result }
{
    if message.len() != 16 {
        return Err(SessionFault::Broken { place });
    }
    let field = u32_at(message, 12);
    if is_of(MessageKind::FunctionError, number, message) {
        return Ok(Some(MbimEnd::FunctionError(field)));
    }
    if field == 0 {
        return Ok(None);
    }
    Ok(Some(MbimEnd::Answer(MbimAnswer::Failure(field))))
}
