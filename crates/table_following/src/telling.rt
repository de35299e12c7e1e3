ghost use Rattle.std.specs.Prelude.{◌≡◌, ◌≤◌, Ok, Err};
ghost use Rattle.kit_io.specs.Causes.{Rose};
ghost use Rattle.qmux_frame.specs.Frame.{size_of};
ghost use Rattle.link_session.specs.Waiting.{Heard};
ghost use Rattle.link_session.specs.Hearing.{Stands};
ghost use Rattle.table_following.specs.Hearing.{TellsTo};

use crate::end::FollowedEnd;
use crate::plan::FollowPlan;
use kit_io::{Sink, WriteFault, write_all_to};
use link_following::{FollowEnd, follow};
use link_io::Link;
use link_session::{Incoming, SessionFault};
use qmux_frame::Qmux;
use request_session::{Client, TlvAnswer};
use std::alloc::Global;
use table_requests::answer_text;

/// Writes the text of an answer that is a success, and follows the indications behind it.
pub(crate) fn tell<L: Link, O: Sink>(
    alloc: Global,
    link: &mut L,
    incoming: &mut Incoming<Qmux>,
    plan: &FollowPlan,
    client: Client,
    answer: &TlvAnswer,
    out: &mut O,
) -> Result<FollowedEnd, SessionFault>
    ensures tells { (heard : Heard) → Stands size_of incoming.old heard
        → TellsTo plan.now client answer.now heard result incoming.new (L.calls link.old) (L.calls link.new) (O.taken out.old) (O.taken out.new) }
    ensures link_fault { result ≡ Err SessionFault.LinkFault → Rose (L.faults link.old) (L.faults link.new) }
    ensures write_fault { result ≡ Ok (FollowedEnd.Followed FollowEnd.WriteFault) → Rose (O.faults out.old) (O.faults out.new) }
    ensures later { L.faults link.old ≤ L.faults link.new }
    ensures later_open { L.open_faults link.old ≤ L.open_faults link.new }
{
    if answer.outcome.status != 0 {
        return Ok(FollowedEnd::Refused(answer.outcome.error));
    }
    let text = answer_text(alloc, plan.request(), answer, plan.kept(client))?;
    if let Err(WriteFault) = write_all_to(out, text.as_slice()) {
        return Ok(FollowedEnd::Followed(FollowEnd::WriteFault));
    }
    let watch = plan.watch(client);
    let end = follow(alloc, link, incoming, &watch, out, plan.turns())?;
    Ok(FollowedEnd::Followed(end))
}
