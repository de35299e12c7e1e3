ghost use Rattle.std.specs.Prelude.{◌≡◌, ◌≤◌, Err, IfOk};
ghost use Rattle.kit_io.specs.Causes.{Rose};
ghost use Rattle.link_session.specs.Asking.{Makes};
ghost use Rattle.table_requests.specs.Answers.{answered, end_of};
ghost use Rattle.table_requests.specs.Session.{Session};

use crate::TablePlan;
use crate::answer::answer_text;
use kit_bytes::Octets;
use link_io::Link;
use link_session::SessionFault;
use request_session::{RequestEnd, TlvAnswer, request_session};
use std::alloc::{AllocError, Global};

/// How a session for a request by tables ends.
#[derive(Drop)]
pub enum TableEnd {
    /// The proxy or the modem refused with this error.
    Refused(u16),
    /// This is printed of the answer.
    Printed(Octets),
}

/// A whole session for a request by tables, over a link that is open, and what is printed of its answer.
pub fn table_session<L: Link>(
    alloc: Global,
    link: &mut L,
    plan: &TablePlan,
) -> Result<TableEnd, SessionFault>
    ensures session { Makes (λ calls. Session plan.now calls result) (L.calls link.old) (L.calls link.new) }
    ensures link_fault { result ≡ Err SessionFault.LinkFault → Rose (L.faults link.old) (L.faults link.new) }
    ensures later { L.faults link.old ≤ L.faults link.new }
    ensures later_open { L.open_faults link.old ≤ L.open_faults link.new }
{
    let end = request_session(alloc, link, plan.session())?;
    let shown = end_of(alloc, plan, end)?;
    Ok(shown)
}

fn end_of(alloc: Global, plan: &TablePlan, end: RequestEnd) -> Result<TableEnd, AllocError>
    ensures { IfOk result (λ shown. shown ≡ end_of plan.now end) }
{
    match end {
        RequestEnd::NotSent(error) => Ok(TableEnd::Refused(error)),
        RequestEnd::Answered { answer, kept } => answered(alloc, plan, &answer, kept),
    }
}

fn answered(
    alloc: Global,
    plan: &TablePlan,
    answer: &TlvAnswer,
    kept: Option<(u8, u8)>,
) -> Result<TableEnd, AllocError>
    ensures { IfOk result (λ shown. shown ≡ answered plan.now answer.now kept) }
{
    if answer.outcome.status != 0 {
        return Ok(TableEnd::Refused(answer.outcome.error));
    }
    let text = answer_text(alloc, plan, answer, kept)?;
    Ok(TableEnd::Printed(text))
}
