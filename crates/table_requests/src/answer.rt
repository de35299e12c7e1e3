ghost use Rattle.std.specs.Prelude.{◌≡◌, IfOk};
ghost use Rattle.message_tables.specs.View.{message_view};
ghost use Rattle.message_tables.specs.WellMade.{IsSoundMessage};
ghost use Rattle.table_requests.specs.Answers.{answer_lines, answer_text};

use crate::{TablePlan, answer_line};
use dissect::push_tlvs;
use json_values::AsPrinted;
use kit_bytes::Octets;
use message_tables::Message;
use print_text::push_heading;
use qmicli_print::push_kept;
use qmux_frame::MessageKind;
use request_session::TlvAnswer;
use std::alloc::{AllocError, Global};

/// What is printed of an answer, and of the service and the client id that are kept.
pub fn answer_text(
    alloc: Global,
    plan: &TablePlan,
    answer: &TlvAnswer,
    kept: Option<(u8, u8)>,
) -> Result<Octets, AllocError>
    ensures { IfOk result (λ text. text ≡ answer_text plan.now answer.now kept) }
{
    let message = plan.message();
    let tlvs = answer.tlvs.as_slice();
    if plan.in_json() {
        let forms = message.output.as_slice();
        answer_line(alloc, &AsPrinted, forms, tlvs, kept, answer.outcome)
    } else {
        answer_lines(alloc, message, tlvs, kept)
    }
}

// The same in lines.
#[tactic(auto, unfolding(crate::specs::Answers::answer_lines))]
fn answer_lines(
    alloc: Global,
    message: &Message,
    tlvs: &[u8],
    kept: Option<(u8, u8)>,
) -> Result<Octets, AllocError>
    requires { IsSoundMessage (message_view message.now) }
    ensures { IfOk result (λ text. text ≡ answer_lines (message_view message.now) tlvs.now kept) }
{
    let mut text = Octets::new(alloc);
    push_heading(&mut text, b"", message.name.as_str())?;
    let forms = message.output.as_slice();
    push_tlvs(alloc, &mut text, MessageKind::Response, forms, tlvs)?;
    push_kept(&mut text, kept)?;
    Ok(text)
}
